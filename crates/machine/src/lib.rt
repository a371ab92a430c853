// The machine of runs: definitions, and what is proved of them, which stands in the contracts of private functions that do nothing.
#![tactic(auto)]

ghost use Rattle.machine.specs.Laws.{RefusedSame, AlwaysOrderly, NeverMore, NeverDeclined, ScopesClose, ReadsNewest, AssignsNewest, RunsAreSteps, BeginsByRule};
ghost use Rattle.machine.specs.Worked.{Worked};

// A run never has more bindings than frames, so no call of a well-formed script is declined by a store whose limit is 255 or more, 255 being the most frames.
fn store_suffices()
    ensures orderly { AlwaysOrderly }
    ensures bindings { NeverMore }
    ensures declined { NeverDeclined 255 }
{}

// The laws of runs, which hold of the definitions; and rows worked by computing.
fn runs_lawful()
    ensures refused { RefusedSame }
    ensures runs { RunsAreSteps }
    ensures reads { ReadsNewest }
    ensures assigns { AssignsNewest }
    ensures scopes { ScopesClose }
    ensures begins { BeginsByRule }
    ensures worked { Worked }
{}
