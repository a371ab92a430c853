ghost use Rattle.std.specs.Prelude.{◌≡◌};
ghost use Rattle.stores.specs.Laws.{Lawful};
ghost use Rattle.stores.specs.Meaning.{shadow_of};

use crate::store::Store;
use faults::Fault;

// What `variable` shows while it is bound anew; the store is then as it was. This stands on the laws, which hold of every store.
pub fn shadowed<S: Store>(
    store: &mut S,
    variable: u8,
    thing: S::Thing,
    birthplace: u8,
) -> Result<Option<(S::Thing, u8)>, Fault>
    ensures laws { Lawful S.Thing }
    ensures same { S.meaning store.new ≡ S.meaning store.old }
    ensures shows { result ≡ shadow_of (S.meaning store.old) variable thing birthplace }
{
    store.bind(variable, thing, birthplace)?;
    let shown = (*store).look(variable);
    store.unbind()?;
    shown
}
