//! How ids are hashed.
use std::hash::{BuildHasher, FoldHasher, Hasher};
use std::io;
use std::random::RandomSource;

/// How tables hash ids and labels: by the rule that everybody knows, or by that rule begun at a secret.
///
/// No answer depends on it, but what a look-up costs does. Who knows the keys can choose ids that share their hashes,
/// and each look-up among these goes over all of them. So whoever takes bytes of strangers makes its tables with secret
/// keys, which cost what the known ones do. Ids that were chosen in advance then meet no oftener than others. It is no
/// cryptographic hash: nothing is promised against somebody who can measure single look-ups.
#[derive(Clone, Copy)]
pub struct IdKeys {
    start: FoldHasher,
}

impl IdKeys {
    /// The rule that everybody knows.
    pub fn known() -> IdKeys {
        IdKeys {
            start: FoldHasher::default(),
        }
    }

    /// The rule begun at 64 bits that the system drew, or the system's error where it draws none.
    pub fn secret(rt: &impl RandomSource) -> io::Result<IdKeys> {
        let mut bytes = [0u8; 16];
        rt.fill_bytes(&mut bytes)?;
        let mut start = FoldHasher::default();
        start.write(&bytes[..8]);
        start.write(&bytes[8..]);
        Ok(IdKeys { start })
    }
}

impl BuildHasher for IdKeys {
    type Hasher = FoldHasher;

    ghost build_hasher = { λ s. s.start };

    #[inline(always)]
    fn build_hasher(&self) -> FoldHasher {
        self.start
    }
}
