//! A small state that acts, as an example for one of your own: the lowest price that was heard of for each item.
ghost use Rattle.std.specs.Prelude.{◌≡◌, ℕ, Option, None as Nothing, List, ⊤, refl, IfOk, IfErr, OnOk};
ghost use Rattle.std.specs.Ordering.{nat_cmp};
ghost use Rattle.std.proofs.Common.{sym, ◌∙◌};
ghost use Rattle.hg_join.specs.Lows.{LowsBelow, LowsJoined, LowsCover, LowsAfter, lows_of};
ghost use Rattle.hg_join.specs.LowLaws.{lows_ordered, lows_commute, lows_associate, lows_idempotent, lows_least};
ghost use Rattle.hg_join.specs.LowLaws.{lows_stay_covered, lows_absorbed, lows_again, lows_swap};
ghost use Rattle.hg_join_tests.specs.Quotes.{PricesValue, Lowers, IsAgainstQuote, Quotes as AreQuoted, quotes_of};
ghost use Rattle.hg_join_tests.specs.Quotes.{told, AreBytesOf, IsAgainstBytesOf, IsNoMemory, KeepsBack, HasNoPrice};
ghost use Rattle.hg_join_tests.specs.QuoteLaws.{memory_is_not_known, spelled_tell, spelled_is_even, memory_is_not_odd};
ghost use Rattle.hg_join_tests.specs.QuoteLaws.{quotes_are_covered, quotes_say_same, memory_is_not_priceless};
ghost use Rattle.hg_join_tests.specs.declared.prices.PriceRefusal.TheVariants.{NoMemory as OutOfMemory};

use hg_join::{Actor, JoinState, LowMap, NoMemory};
use std::alloc::{AllocError, AllocFailed, Global};
use std::marker::Model;

/// Items, each with a price. Contracts see that list.
#[derive(Drop)]
pub struct Quotes {
    pairs: Vec<(u8, u8)>,
}

impl Model for Quotes {
    ghost use Rattle.std.specs.Prelude.{List, ℕ};

    ghost Value = { List (ℕ × ℕ) };

    ghost view = { λ quotes. quotes.pairs.items };
}

/// From items to the lowest price that was heard of for each, with the item that is kept back from others, if one is.
///
/// An operation quotes an item at a price, and an offer tells the prices of some items. Its bytes are each item that
/// has a price and isn't kept back, and that price after it. A mark says which item is kept back from now on.
#[derive(Drop)]
pub struct Prices {
    lows: LowMap<u8>,
    kept_back: Option<u8>,
}

impl Model for Prices {
    ghost use Rattle.std.specs.Coded.{codes};
    ghost use Rattle.hg_join_tests.specs.Quotes.{PricesValue};

    ghost Value = { PricesValue };

    ghost coded = { Prim.hlevel (codes) };

    ghost view = { λ prices. record { lows = prices.lows; kept_back = prices.kept_back } };
}

impl Prices {
    /// The lowest price that was heard of for an item, if any was.
    pub fn get(&self, item: u8) -> Option<u8>
        ensures { result ≡ lows_of nat_cmp self.now.lows item }
    {
        self.lows.get(item)
    }
}

/// Why prices refuse.
#[derive(Clone, Copy, Debug, PartialEq, Eq)]
pub enum PriceRefusal {
    /// The item has a price as low already.
    NotLower,

    /// The last item has no price.
    OddBytes,

    /// The item that is to be kept back has no price.
    NoPrice,

    /// Memory ran out.
    NoMemory,
}

impl From<AllocError> for PriceRefusal {
    ghost from_gives = { λ _ e. e ≡ OutOfMemory };

    fn from(_error: AllocError) -> PriceRefusal {
        PriceRefusal::NoMemory
    }
}

impl<T: Drop> From<AllocFailed<T>> for PriceRefusal {
    ghost from_gives = { λ _ e. e ≡ OutOfMemory };

    fn from(_error: AllocFailed<T>) -> PriceRefusal {
        PriceRefusal::NoMemory
    }
}

impl JoinState for Prices {
    type Part = Quotes;

    type Change = ();

    type Fault = NoMemory;

    ghost Content = { ℕ → Option ℕ };

    ghost content = { λ prices. lows_of nat_cmp prices.lows };

    ghost IsValid = { λ f. ⊤ };

    ghost Below = { LowsBelow };

    ghost Joined = { LowsJoined };

    ghost Collides = { λ f g fault. ⊥ };

    ghost PartContent = { List (ℕ × ℕ) };

    ghost part_content = { λ quotes. quotes };

    ghost Covers = { LowsCover nat_cmp };

    ghost Admits = { λ f quotes. ⊤ };

    ghost After = { LowsAfter nat_cmp };

    ghost IsFirstFault = { λ f quotes fault. ⊥ };

    ghost Tells = { λ old part change new. new.kept_back ≡ old.kept_back };

    ghost IsWantOfMemory = { λ fault. ⊤ };

    ghost ordered = { lows_ordered };

    ghost stays_covered = { lows_stay_covered nat_cmp };

    ghost absorbed = { lows_absorbed nat_cmp };

    ghost after_is_admitted = { λ a b p v h. tt };

    ghost faultless = { λ a p fault v admitted h. h };

    ghost covered_is_admitted = { λ a p v c. tt };

    ghost apart = { λ a b c fault v w joined h. h };

    ghost collides_for_good = { λ a b c fault u v w p q h. h };

    ghost memory_is_no_fault = { λ a p fault v w h. h };

    ghost memory_is_no_collision = { λ a b fault u v w h. h };

    ghost commutes = { λ a b c v w. (lows_commute a b c, lows_commute b a c) };

    ghost associates = { λ a b c abc u v w. lows_associate a b c abc };

    ghost idempotent = { λ a v. lows_idempotent a };

    ghost least = { λ a b c v w. lows_least a b c };

    ghost again = { lows_again nat_cmp };

    ghost swap = { lows_swap nat_cmp };

    fn copy(&self) -> Result<Prices, NoMemory> {
        Ok(Prices {
            lows: self.lows.copy()?,
            kept_back: self.kept_back,
        })
    }

    fn absorb(&mut self, quotes: &Quotes) -> Result<(), NoMemory> {
        self.lows.absorb(&quotes.pairs)
    }

    fn join(&mut self, other: &Prices) -> Result<(), NoMemory> {
        self.lows.join(&other.lows)
    }

    fn below(&self, other: &Prices) -> Result<bool, NoMemory> {
        self.lows.below(&other.lows)
    }
}

impl Actor for Prices {
    type Op = (u8, u8);

    type Ask = Vec<u8>;

    // The item that is kept back from now on.
    type Mark = u8;

    type Refusal = PriceRefusal;

    ghost Own = { Option ℕ };

    ghost owned = { λ prices. prices.kept_back };

    ghost own_of_empty = { Nothing };

    ghost Decides = { λ prices. Lowers prices.lows };

    ghost IsAgainstOp = { λ prices. IsAgainstQuote prices.lows };

    ghost Offers = { AreQuoted };

    // Items without a price are left out, so there is no reason against an offer.
    ghost IsAgainstAsk = { λ prices items refusal. ⊥ };

    ghost Marks = { KeepsBack };

    ghost IsAgainstMark = { HasNoPrice };

    ghost Spells = { AreBytesOf };

    ghost IsAgainstBytes = { IsAgainstBytesOf };

    ghost IsRefusalOfMemory = { IsNoMemory };

    ghost decided_once = { λ s t quote p q v e own h k. h.1 ∙ sym k.1 };

    ghost decided_is_not_refused = { λ s quote p refusal v h k. h.0 k.0 };

    ghost offered_once = { λ s items bytes others v h k. h ∙ sym k };

    ghost offered_is_not_refused = { λ s items bytes refusal v h k. k };

    ghost offered_is_spelled = { λ s items bytes v h. (quotes_of (told s) items.items, h) };

    ghost offered_is_covered = { λ s items bytes p v. quotes_are_covered s items.items bytes p };

    ghost offered_alike = { λ s t items bytes others p q v. quotes_say_same s t items.items bytes others p q };

    ghost marked_says_the_same = { λ s t item h. h.2 };

    ghost marked_once = { λ s t next follow item e own h k. h.1 ∙ sym k.1 };

    ghost marked_is_not_refused = { λ s t item refusal h k. h.0 k.0 };

    ghost told_leaves_own = { λ s t part change h. h };

    ghost spelled_once = { spelled_tell };

    ghost spelled_is_not_refused = { spelled_is_even };

    ghost memory_is_not_against_op = { λ s. memory_is_not_known s.lows };

    ghost memory_is_not_against_ask = { λ s items refusal h k. k };

    ghost memory_is_not_against_mark = { memory_is_not_priceless };

    ghost memory_is_not_against_bytes = { memory_is_not_odd };

    fn empty(alloc: Global) -> Result<Prices, NoMemory> {
        Ok(Prices {
            lows: LowMap::new(alloc),
            kept_back: None,
        })
    }

    fn decide(&self, alloc: Global, quote: &(u8, u8)) -> Result<Quotes, PriceRefusal> {
        match self.lows.get(quote.0) {
            Some(price) if price <= quote.1 => return Err(PriceRefusal::NotLower),
            _ => {}
        }
        let mut pairs = Vec::new(alloc);
        pairs.push(*quote)?;
        Ok(Quotes { pairs })
    }

    fn offer(&self, alloc: Global, items: &Vec<u8>) -> Result<Vec<u8>, PriceRefusal> {
        bytes_of_quotes(alloc, self, items)
    }

    fn mark(&mut self, item: &u8) -> Result<(), PriceRefusal> {
        if self.lows.get(*item).is_none() {
            return Err(PriceRefusal::NoPrice);
        }
        self.kept_back = Some(*item);
        Ok(())
    }

    fn read(alloc: Global, bytes: &[u8]) -> Result<Quotes, PriceRefusal> {
        let mut pairs = Vec::new(alloc);
        let mut left = bytes;
        while let [item, price, rest @ ..] = left {
            pairs.push((*item, *price))?;
            left = rest;
        }
        if left.is_empty() {
            Ok(Quotes { pairs })
        } else {
            Err(PriceRefusal::OddBytes)
        }
    }
}

/// Each of the items that has a price and isn't kept back, and that price after it.
fn bytes_of_quotes(alloc: Global, prices: &Prices, items: &[u8]) -> Result<Vec<u8>, PriceRefusal>
    ensures ok { IfOk result (λ bytes. AreBytesOf bytes.items (quotes_of (told prices.now) items.now)) }
    ensures err { IfErr result IsNoMemory }
{
    let mut bytes = Vec::new(alloc);
    for item in items {
        if let Some(price) = told_price(prices, *item) {
            bytes.push(*item)?;
            bytes.push(price)?;
        }
    }
    Ok(bytes)
}

/// The price of an item that isn't kept back, if it has one.
fn told_price(prices: &Prices, item: u8) -> Option<u8>
    ensures { result ≡ told prices.now item }
{
    if prices.kept_back == Some(item) {
        return None;
    }
    prices.get(item)
}
