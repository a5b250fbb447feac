//! The meaning of code and its verification, computed on pieces of code with the answers of another program.

ghost use Rattle.callers_code.specs.Examples.{RunsAreRight, VerificationsAreRight};

pub fn runs_are_right()
    ensures { RunsAreRight }
{}

pub fn verifications_are_right()
    ensures { VerificationsAreRight }
{}
