//! The bytes of the files that a page is made from.

/// The tables of a folder that name items and patrons.
pub struct NameTexts {
    pub items: Vec<u8>,
    pub patrons: Vec<u8>,
}

impl Drop for NameTexts {
    fn drop(self) {
        let NameTexts {
            items: _,
            patrons: _,
        } = self;
    }
}

/// The journal of a run, and the tables in which it says what became of each line.
pub struct FateTexts {
    pub journal: Vec<u8>,
    pub answers: Vec<u8>,
    pub passed: Vec<u8>,
    pub report: Vec<u8>,
}

impl Drop for FateTexts {
    fn drop(self) {
        let FateTexts {
            journal: _,
            answers: _,
            passed: _,
            report: _,
        } = self;
    }
}

/// A table before a run and after it.
pub struct BothTexts {
    pub before: Vec<u8>,
    pub after: Vec<u8>,
}

impl Drop for BothTexts {
    fn drop(self) {
        let BothTexts {
            before: _,
            after: _,
        } = self;
    }
}

/// The tables before a run, where these are given, and those after it.
pub struct BaseTexts {
    pub names: NameTexts,
    pub loans: BothTexts,
    /// Empty where there is no such table.
    pub holds: BothTexts,
    pub fees: BothTexts,
}

impl Drop for BaseTexts {
    fn drop(self) {
        let BaseTexts {
            names: _,
            loans: _,
            holds: _,
            fees: _,
        } = self;
    }
}

/// The bytes of all files that a page is made from.
pub struct PageTexts {
    /// What items and patrons are called after the run.
    pub names: NameTexts,
    pub result: FateTexts,
    /// The table of reasons, where the words name one.
    pub why: Option<Vec<u8>>,
    /// What the run began with, where the words name a base.
    pub base: Option<BaseTexts>,
}

impl Drop for PageTexts {
    fn drop(self) {
        let PageTexts {
            names: _,
            result: _,
            why: _,
            base: _,
        } = self;
    }
}
