//! The verdict on a report.

ghost use Rattle.std.specs.Prelude.{◌≡◌, ◌↔◌, IfOk};
ghost use Rattle.audit_rules.specs.Tests.{verdict_of};
ghost use Rattle.audit_rules.specs.Verdicts.{IsSerialReport};
ghost use Rattle.mate_journal.specs.declared.law.Verdict.TheVariants.{Serial};
ghost use Rattle.node_programs.specs.Right.{AreRightPrograms};
ghost use Rattle.report_writer.specs.Tidy.{IsTidy};

use audit_rules::{Verdict, one_verdict, the_verdict_is_told};
use mate_journal::{Programs, Report};
use mate_num::NoMemory;
use report_audit::audit;
use std::alloc::Global;
use vm_shape::Description;

/// A body that kept who ended, answered another one, or ran too few invocations again would give another verdict on some report.
pub fn a_report_has_the_verdict_of_the_laws(
    alloc: Global,
    desc: &Description,
    programs: &Programs,
    report: &Report,
) -> Result<Verdict, NoMemory>
    requires tidy { IsTidy desc.now report.now }
    requires right { AreRightPrograms desc.now programs.now }
    ensures verdict { IfOk result (λ v. v ≡ verdict_of desc.now programs.now report.now) }
    ensures serial { IfOk result (λ v. (v ≡ Serial) ↔ IsSerialReport desc.now programs.now report.now) }
{
    one_verdict();
    the_verdict_is_told();
    audit(alloc, desc, programs, report)
}
