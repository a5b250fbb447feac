//! The law of keywords.

ghost use Rattle.ts_checker.specs.Keywords.{KeywordsAreTheSame};

/// The keywords of scripts are exactly the words that no description may take as a name, in the same order. So a name
/// of a machine is never cut as a keyword, and each new keyword is refused as a name.
pub fn keywords_are_no_names()
    ensures { KeywordsAreTheSame }
{}
