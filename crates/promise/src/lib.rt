// What accepted tables and the marks of the rule promise of every run: the statement and its proof.
#![tactic(auto)]

ghost use Rattle.promise.specs.Promise.{Promise, PassedPromise, AlwaysFinds};
ghost use Rattle.promise.specs.Worked.{Worked};

// Every run of a well-formed script stays inside accepted tables, and with the marks of the rule it answers and reports the same.
fn promised()
    ensures promise { Promise }
    ensures passed { PassedPromise }
    ensures found { AlwaysFinds }
    ensures worked { Worked }
{}
