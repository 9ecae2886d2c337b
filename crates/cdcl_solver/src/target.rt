// What a search is of.

use formula::Core;

/// A root, integers for its names, and how many of its first for-alls are universal constants.
#[derive(Clone, Copy)]
pub(crate) struct Target<'a> {
    pub(crate) root: &'a Core,
    pub(crate) values: &'a [i128],
    pub(crate) universals: u32,
}
