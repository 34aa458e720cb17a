//! What all workers of a run have before them.
use chord_base::event::Limits;
use chord_code::code::Code;
use chord_space::Space;
use chord_task::parcel::Parcel;

/// The table of the run, its code and its limits.
#[derive(Drop)]
pub(crate) struct Run<'a> {
    pub space: &'a Space<Parcel>,
    pub code: &'a Code,
    pub limits: &'a Limits,
}
