use model::Name;

/// Stations that are all under one name: a mask of them, which is not empty.
#[derive(Clone, Copy)]
pub struct Support {
    pub(crate) name: Name,
    pub(crate) mask: u32,
}
