#![tactic(auto)]

ghost use Rattle.trials.specs.Worked.{Worked};

// Runs both stores, compiled, through one sequence of calls, and finds the owners of a worked script; the answers are those of the rules.
#[cfg(test)]
mod tests {
    use deep::Deep;
    use faults::Fault;
    use owners::find_owners;
    use shallow::{Saved, Shallow};
    use std::process::Abort;
    use std::test::Fail;
    use stores::{Binding, Store};
    use terms::{Program, RawTerm};

    // bindings, newest first, above the top level; a put while a binding stands leaves the top level alone
    fn binds<S: Store<Thing = u8>>(rt: &impl Abort, store: &mut S) {
        assert_eq!(rt; (*store).look(2), Ok(None));
        assert_eq!(rt; store.put(2, 7), Ok(()));
        assert_eq!(rt; (*store).look(2), Ok(Some((7, 0))));
        assert_eq!(rt; store.bind(2, 10, 5), Ok(()));
        assert_eq!(rt; store.bind(31, 11, 6), Ok(()));
        assert_eq!(rt; store.bind(2, 12, 8), Ok(()));
        assert_eq!(rt; store.put(2, 20), Ok(()));
        assert_eq!(rt; (*store).look(2), Ok(Some((20, 8))));
        assert_eq!(rt; (*store).look(31), Ok(Some((11, 6))));
        assert_eq!(rt; store.unbind(), Ok(()));
        assert_eq!(rt; (*store).look(2), Ok(Some((10, 5))));
        assert_eq!(rt; store.unbind(), Ok(()));
        assert_eq!(rt; store.unbind(), Ok(()));
        assert_eq!(rt; (*store).look(2), Ok(Some((7, 0))));
    }

    fn refuses<S: Store<Thing = u8>>(rt: &impl Abort, store: &mut S) {
        assert_eq!(rt; store.unbind(), Err(Fault::StoreEmpty));
        for label in 1..=3u8 {
            assert_eq!(rt; store.bind(0, label, label), Ok(()));
        }
        assert_eq!(rt; (*store).count(), 3);
        assert_eq!(rt; (*store).limit(), 3);
        assert_eq!(rt; store.bind(0, 4, 4), Err(Fault::StoreFull));
        assert_eq!(rt; store.bind(32, 4, 4), Err(Fault::NoSuchVariable));
        assert_eq!(rt; store.put(32, 4), Err(Fault::NoSuchVariable));
        assert_eq!(rt; (*store).look(255), Err(Fault::NoSuchVariable));
        assert_eq!(rt; (*store).look(0), Ok(Some((3, 3))));
        store.clear();
        assert_eq!(rt; (*store).count(), 0);
        assert_eq!(rt; (*store).look(2), Ok(None));
    }

    #[test]
    fn deep_store(rt: HostRuntime) {
        let mut records = [Binding {
            variable: 0,
            thing: 0u8,
            birthplace: 0,
        }; 3];
        let mut store = Deep::over(&mut records);
        binds(&rt, &mut store);
        refuses(&rt, &mut store);
    }

    #[test]
    fn shallow_store(rt: HostRuntime) {
        let blank: Saved<u8> = Saved {
            variable: 0,
            covered: None,
        };
        let mut trail = [blank; 3];
        let mut store = Shallow::over(&mut trail);
        binds(&rt, &mut store);
        refuses(&rt, &mut store);
    }

    // what the definitions say of the worked scripts, shown by computing
    fn worked() -> u8
        ensures { Worked }
    {
        0
    }

    fn row(kind: u32, a: u32, b: u32, c: u32) -> RawTerm {
        RawTerm { kind, a, b, c }
    }

    // (let x 1 (lambda (y) x)): label 2 is owned by 3, and captured
    #[test]
    fn closure(rt: HostRuntime) -> Result<(), Fail> {
        let _ = worked();
        let terms = [
            row(1, 1, 0, 0),
            row(4, 2, 0, 0),
            row(3, 3, 2, 0),
            row(6, 2, 1, 3),
        ];
        let program = Program::make(&terms, 4, &[])?;
        let mut records = [Binding {
            variable: 0,
            thing: 0u8,
            birthplace: 0,
        }; 255];
        let mut store = Deep::over(&mut records);
        let mut owners = [9u8; 256];
        let mut captured = [9u8; 256];
        find_owners(&program, &mut store, &mut owners, &mut captured)?;
        assert_eq!(rt; (owners[2], captured[2]), (3, 1));
        assert_eq!(rt; (owners[1], captured[1]), (0, 0));
        assert_eq!(rt; (owners[255], captured[255]), (0, 0));
        Ok(())
    }
}
