// The clauses of a proposal, the verdict on them and the rule for marks: definitions, and what is proved of them, which stands in the
// contracts of private functions that do nothing. Nothing here checks a proposal.
#![tactic(auto)]

ghost use Rattle.clauses.specs.Acceptance.{CheckAccepts, CheckRefuses, VerdictAccepts, VerdictRefuses};
ghost use Rattle.clauses.specs.Marks.{MarksExact, MarksBytes};
ghost use Rattle.clauses.specs.Numbers.{PartNumbers};
ghost use Rattle.clauses.specs.Worked.{Worked};

// For every well-formed script a check accepts exactly the tables that are in due form and meet every clause; a refusal tells what is wrong with
// their form, or names exactly the first part that is not met.
fn verdict_stands()
    ensures whole { CheckAccepts }
    ensures refusals { CheckRefuses }
    ensures accepts { VerdictAccepts }
    ensures refuses { VerdictRefuses }
    ensures numbers { PartNumbers }
{}

// What marks a binder is exactly the rule, and the bytes tell it.
fn marks_stand()
    ensures exact { MarksExact }
    ensures bytes { MarksBytes }
{}

// What the definitions say of worked scripts; and one script and its tables meet all that is asked above.
fn worked_scripts()
    ensures { Worked }
{}
