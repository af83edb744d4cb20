// The check of a site file, and the lookups in it: on any slice, and by the index of a site. A lookup takes a number of its own type; what goes by a kind
// and a bare number stays inside this crate.
#![tactic(auto)]

pub mod object; // object.rt: what an instance numbers
pub mod lookup; // lookup.rt: the record that a number names, and its place, on any slice
pub mod indexed; // indexed.rt: the same by the index of the site
pub mod range; // range.rt: whether a field is out of range
pub mod twins; // twins.rt: whether the same is there twice
pub mod names; // names.rt: whether a named object is missing
pub mod check; // check.rt: whether a site is turned back, and its index

use model::CredentialId;

// A factor as it is presented: to identify a credential, or to confirm this one.
#[derive(Clone, Copy)]
pub struct Presented {
    pub confirms: Option<CredentialId>,
    pub format: u8,
    pub value: [u8; 8],
}
