//! The functions of the library with their signatures.
ghost use Rattle.std.specs.Prelude.{◌≡◌, ◌↔◌, ℕ, List, IsTrue, Some, bytes_eq, is_some, option_map, slice_get};
ghost use Rattle.std.specs.List.{list_any};
ghost use Rattle.isp_exprs.specs.Callees.{library_named};
ghost use Rattle.isp_server.specs.Library.{signatures};
ghost use Rattle.isp_server.specs.reader.Signatures.{signature_view};

/// A function of the library.
#[derive(Clone, Copy)]
pub(crate) struct Signature {
    pub name: &'static str,
    /// Its signature, as a reader sees it.
    pub text: &'static str,
}

fn some(name: &'static str, text: &'static str) -> Option<Signature>
    ensures { option_map signature_view result ≡ Some (name.now, text.now) }
{
    Some(Signature { name, text })
}

/// The function of the library that has this number in the table.
#[tactic(auto, unfolding(crate::specs::Library::signatures))]
pub(crate) fn library_entry(number: usize) -> Option<Signature>
    ensures { option_map signature_view result ≡ slice_get signatures number }
{
    match number {
        0 => some(
            "reduce_add",
            "uniform T reduce_add(varying T x), T of twice the width in the result",
        ),
        1 => some("reduce_min", "uniform T reduce_min(varying T x)"),
        2 => some("reduce_max", "uniform T reduce_max(varying T x)"),
        3 => some("reduce_equal", "uniform bool reduce_equal(varying T x)"),
        4 => some("any", "uniform bool any(varying bool x)"),
        5 => some("all", "uniform bool all(varying bool x)"),
        6 => some("none", "uniform bool none(varying bool x)"),
        7 => some(
            "exclusive_scan_add",
            "varying T exclusive_scan_add(varying T x)",
        ),
        8 => some(
            "exclusive_scan_and",
            "varying T exclusive_scan_and(varying T x)",
        ),
        9 => some(
            "exclusive_scan_or",
            "varying T exclusive_scan_or(varying T x)",
        ),
        10 => some(
            "broadcast",
            "varying T broadcast(varying T x, uniform int32 i)",
        ),
        11 => some("rotate", "varying T rotate(varying T x, uniform int32 k)"),
        12 => some("shift", "varying T shift(varying T x, uniform int32 k)"),
        13 => some(
            "shuffle",
            "varying T shuffle(varying T x, [varying T y,] varying int32 p)",
        ),
        14 => some("extract", "uniform T extract(varying T x, uniform int32 i)"),
        15 => some(
            "insert",
            "varying T insert(varying T x, uniform int32 i, uniform T v)",
        ),
        16 => some(
            "packed_store_active",
            "uniform int32 packed_store_active(uniform T base[], varying T x)",
        ),
        17 => some(
            "packed_load_active",
            "uniform int32 packed_load_active(uniform T base[], varying T &x)",
        ),
        18 => some("min", "T min(T x, T y)"),
        19 => some("max", "T max(T x, T y)"),
        20 => some("clamp", "T clamp(T x, T low, T high)"),
        21 => some("abs", "T abs(T x)"),
        22 => some("select", "T select(bool c, T x, T y)"),
        _ => None,
    }
}

/// A law: the table has the names of the library's functions, and no others.
pub fn library_law()
    ensures { (name : List ℕ) → is_some (library_named name) ≡ list_any (λ s. bytes_eq s.0 name) signatures }
{}
