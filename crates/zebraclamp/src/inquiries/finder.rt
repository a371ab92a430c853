use crate::findings::{Finding, Findings};
use crate::inquiries::inquiry::{Inquiry, StoreKind};
use crate::inquiries::listing::Listing;
use deep::Deep;
use owners::find_owners;
use shallow::{Saved, Shallow};
use std::alloc::{AllocError, Global};
use stores::{Binding, Store};
use terms::Program;

// A program, and how its owners are to be found.
#[derive(Clone, Copy)]
struct Finder<'a> {
    heap: Global,
    program: &'a Program,
    inquiry: Inquiry,
}

pub(crate) fn find(
    heap: Global,
    program: &Program,
    inquiry: Inquiry,
) -> Result<Findings<StoreKind, Listing>, AllocError> {
    let finder = Finder {
        heap,
        program,
        inquiry,
    };
    inquiry.stores.find(|kind| finder.over(kind))
}

impl Finder<'_> {
    fn over(&self, kind: StoreKind) -> Result<Finding<Listing>, AllocError> {
        let count = usize::from(self.inquiry.records);
        match kind {
            StoreKind::Deep => {
                let mut records = vec![in self.heap; Binding::default(); count]?;
                self.over_store(&mut Deep::over(records.as_mut_slice()))
            }
            StoreKind::Shallow => {
                let mut trail = vec![in self.heap; Saved::default(); count]?;
                self.over_store(&mut Shallow::over(trail.as_mut_slice()))
            }
        }
    }

    // The memory is handed over full of 255, so that what is not written shows.
    fn over_store<S: Store<Thing = u8>>(
        &self,
        store: &mut S,
    ) -> Result<Finding<Listing>, AllocError> {
        let mut owners = vec![in self.heap; 255u8; usize::from(self.inquiry.owners)]?;
        let mut captured = vec![in self.heap; 255u8; usize::from(self.inquiry.captured)]?;
        match find_owners(
            self.program,
            store,
            owners.as_mut_slice(),
            captured.as_mut_slice(),
        ) {
            Ok(()) => {
                let listing = Listing::of(self.heap, self.program, &owners, &captured)?;
                Ok(Finding(Ok(listing)))
            }
            Err(fault) => Ok(Finding(Err(fault))),
        }
    }
}
