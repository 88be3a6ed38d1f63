// How many rules a table may have: the format's limit.
pub(crate) const MOST_RULES: usize = 1024;

// A set of rules below 1,024, a bit for each. It says only where to look, and nothing is promised of it.
#[derive(Clone, Copy)]
pub(crate) struct RuleBits {
    words: [u64; 16],
}

impl RuleBits {
    pub(crate) fn none() -> RuleBits {
        RuleBits { words: [0; 16] }
    }

    // Adds a rule, but for one past the last that there may be.
    pub(crate) fn add(&mut self, rule: usize) {
        let word = rule / 64;
        if word < self.words.len() {
            self.words[word] |= 1 << (rule % 64);
        }
    }

    // Takes a rule out.
    pub(crate) fn remove(&mut self, rule: usize) {
        let word = rule / 64;
        if word < self.words.len() {
            self.words[word] &= !(1 << (rule % 64));
        }
    }

    // Adds the rules of another set.
    pub(crate) fn add_all(&mut self, other: &RuleBits) {
        for k in 0..self.words.len() {
            self.words[k] |= other.words[k];
        }
    }

    // The first rule of the set.
    pub(crate) fn first(&self) -> Option<usize> {
        let word = self.words.iter().position(|word| *word != 0)?;
        Some(word * 64 + self.words[word].trailing_zeros() as usize)
    }

    // The first rule of the set, which is taken out.
    pub(crate) fn take(&mut self) -> Option<usize> {
        let rule = self.first()?;
        self.remove(rule);
        Some(rule)
    }
}
