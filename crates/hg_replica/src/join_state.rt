//! Replicas as states that join.
//!
//! What a replica contains is free of the order in which things came: for each id the changeset and its phase, where it
//! is held, and for each marker whether it is held. So two replicas that are below each other have one content, in
//! whatever order each keeps it. Each law is that of histories beside that of sets.
ghost use Rattle.std.specs.Prelude.{◌≡◌, ◌↔◌, ◌⊎◌, IsTrue, IsOkAnd, IfOk, IfErr, OnOk, OnErr, IsErrOf};
ghost use Rattle.hg_replica.specs.Answer.{IsAbsorbed, IsGrowthBeforeFault};
ghost use Rattle.hg_replica.specs.Content.{content_of, IsValidContent, ContentBelow, ContentsJoined, ContentsCollide};
ghost use Rattle.hg_replica.specs.Content.{ContentAfter, IsContentFault};
ghost use Rattle.hg_replica.specs.ContentLaws.{replicas_ordered, replicas_stay_covered, replicas_absorbed};
ghost use Rattle.hg_replica.specs.ContentLaws.{replicas_admit};
ghost use Rattle.hg_replica.specs.ContentLaws.{replicas_faultless, replicas_admit_covered, replicas_apart};
ghost use Rattle.hg_replica.specs.ContentLaws.{replicas_collide_for_good, replicas_memory_faultless};
ghost use Rattle.hg_replica.specs.ContentLaws.{replicas_memory_apart, replicas_commute, replicas_associate};
ghost use Rattle.hg_replica.specs.ContentLaws.{replicas_join_themselves, replicas_least, replicas_again, replicas_swap};
ghost use Rattle.hg_replica.specs.Least.{part_of};
ghost use Rattle.hg_replica.specs.Words.{replica_words};

use crate::part::{Change, Part};
use crate::replica::Replica;
use hg_history::Fault;
use hg_join::{JoinState, NoMemory};

impl JoinState for Replica {
    type Part = Part;

    type Change = Change;

    type Fault = Fault;

    ghost Content = { replica_words.Content };

    ghost content = { replica_words.content };

    ghost IsValid = { replica_words.IsValid };

    ghost Below = { replica_words.Below };

    ghost Joined = { replica_words.Joined };

    ghost Collides = { replica_words.Collides };

    ghost PartContent = { replica_words.PartContent };

    ghost part_content = { replica_words.part_content };

    ghost Covers = { replica_words.Covers };

    ghost Admits = { replica_words.Admits };

    ghost After = { replica_words.After };

    ghost IsFirstFault = { replica_words.IsFirstFault };

    ghost Tells = { replica_words.Tells };

    ghost IsWantOfMemory = { replica_words.IsWantOfMemory };

    ghost ordered = { replicas_ordered };

    ghost stays_covered = { replicas_stay_covered };

    ghost absorbed = { replicas_absorbed };

    ghost after_is_admitted = { replicas_admit };

    ghost faultless = { replicas_faultless };

    ghost covered_is_admitted = { replicas_admit_covered };

    ghost apart = { replicas_apart };

    ghost collides_for_good = { replicas_collide_for_good };

    ghost memory_is_no_fault = { replicas_memory_faultless };

    ghost memory_is_no_collision = { replicas_memory_apart };

    ghost commutes = { replicas_commute };

    ghost associates = { replicas_associate };

    ghost idempotent = { replicas_join_themselves };

    ghost least = { replicas_least };

    ghost again = { replicas_again };

    ghost swap = { replicas_swap };

    fn copy(&self) -> Result<Replica, NoMemory> {
        Replica::copy(self)
    }

    fn absorb(&mut self, part: &Part) -> Result<Change, Fault>
        ensures after { OnOk result (ContentAfter (content_of self.old) part.now (content_of self.new)) }
        ensures change { IfOk result (λ change. IsAbsorbed self.old part.now change self.new) }
        ensures valid { OnOk result (IsValidContent (content_of self.old)) }
        ensures fault { IfErr result (λ fault. IsContentFault (content_of self.old) part.now fault
            ⊎ (fault ≡ Fault.NoMemory)) }
        ensures err { OnErr result (self.new ≡ self.old) }

        // Want of memory is told only where something grows before a fault is met.
        ensures memory { IsErrOf result Fault.NoMemory → IsGrowthBeforeFault self.old part.now }
    {
        Replica::absorb(self, part)
    }

    fn absorb_owned(&mut self, part: Part) -> Result<Change, Fault>
        ensures after { OnOk result (ContentAfter (content_of self.old) part (content_of self.new)) }
        ensures change { IfOk result (λ change. IsAbsorbed self.old part change self.new) }
        ensures valid { OnOk result (IsValidContent (content_of self.old)) }
        ensures fault { IfErr result (λ fault. IsContentFault (content_of self.old) part fault
            ⊎ (fault ≡ Fault.NoMemory)) }
        ensures err { OnErr result (self.new ≡ self.old) }

        // Want of memory is told only where something grows before a fault is met.
        ensures memory { IsErrOf result Fault.NoMemory → IsGrowthBeforeFault self.old part }
    {
        Replica::absorb_owned(self, part)
    }

    fn join(&mut self, other: &Replica) -> Result<(), Fault>
        ensures joined { OnOk result
            (ContentsJoined (content_of self.old) (content_of other.now) (content_of self.new)) }
        ensures valid { OnOk result (IsValidContent (content_of self.old)) }
        ensures other_valid { OnOk result (IsValidContent (content_of other.now)) }
        ensures fault { IfErr result
            (λ fault. ContentsCollide (content_of self.old) (content_of other.now) fault ⊎ (fault ≡ Fault.NoMemory)) }
        ensures err { OnErr result (self.new ≡ self.old) }

        // Want of memory is told only where something grows before a fault is met.
        ensures memory { IsErrOf result Fault.NoMemory → IsGrowthBeforeFault self.old (part_of other.now) }
    {
        Replica::join(self, other)
    }

    fn below(&self, other: &Replica) -> Result<bool, NoMemory>
        // It takes no memory, so it is never refused.
        ensures answer { IsOkAnd result
            (λ answer. IsTrue answer ↔ ContentBelow (content_of self.now) (content_of other.now)) }
        ensures valid { IsValidContent (content_of self.now) }
        ensures other_valid { IsValidContent (content_of other.now) }
    {
        Ok(self.is_below(other))
    }
}
