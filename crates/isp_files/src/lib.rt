//! Arrays in files that others write and read: NumPy's NPY, and the images PGM and PPM.
#![tactic(auto)]

mod endian;
mod entry;
mod fault;
mod grid;
mod header;
mod images;
mod laws;
mod npy;
mod numbers;
mod reader;
mod writing;

pub use fault::{FileFault, Flaw};
pub use grid::Grid;
pub use images::read_image;
pub use laws::file_laws;
pub use npy::read_npy;
pub use writing::{write_image, write_npy};
