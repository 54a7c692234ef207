//! What is written is read as it was.
ghost use Rattle.std.specs.Prelude.{◌≡◌, ◌<◌, ◌≤◌, ℕ, List, length, Ok, Some, slice_index};
ghost use Rattle.isp_base.specs.Rows.{Fit, Row};
ghost use Rattle.isp_files.specs.Files.{count_of};
ghost use Rattle.isp_files.specs.Npy.{npy_of};
ghost use Rattle.isp_files.specs.Reading.{longest};
ghost use Rattle.isp_files.specs.Writing.{header_text, npy_bytes};

/// What holds of all arrays: an array that is written as an NPY file is read as it was, with its shape.
pub fn file_laws()
    ensures { (shape : List ℕ) (a : Row) → length shape ≤ 64 → ((k : ℕ) → slice_index shape k ≤ longest) → length (header_text a.elem shape) < 65536
        → count_of shape ≡ Some (length a.bits) → Fit a.elem a.bits → npy_of (npy_bytes shape a) ≡ Ok (shape, a) }
{}
