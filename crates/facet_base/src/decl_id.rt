ghost use Rattle.std.specs.Prelude.{◌≡◌};
ghost use Rattle.facet_base.specs.DeclId.{extern_text};
ghost use Rattle.facet_base.specs.Fnv.{fnv, fnv_start};

use crate::fnv::{FNV_START, fnv1a_128};
use std::fmt;

/// The id of a type's declaration, which all types made from one generic type share.
#[derive(Clone, Copy, PartialEq, Eq, PartialOrd, Ord, Hash)]
pub struct DeclId(pub u128);

impl DeclId {
    /// The id with this hash.
    pub fn new(hash: u128) -> DeclId
        ensures { result.0 ≡ hash }
    {
        DeclId(hash)
    }
}

impl fmt::Debug for DeclId {
    ghost use Rattle.std.specs.Prelude.{Some};
    ghost use Rattle.facet_base.specs.DeclId.{decl_id_text};

    ghost debug_output = { λ id. Some (decl_id_text id.0) };

    fn fmt<W: fmt::Write>(&self, f: &mut fmt::Formatter<W>) -> fmt::Result {
        f.write_str("DeclId(0x")?;
        for byte in self.0.to_be_bytes() {
            write!(f, "{byte:02x}")?;
        }
        f.write_str(")")
    }
}

/// The 128-bit FNV-1a hash of a text.
pub fn decl_id_hash(s: &str) -> u128
    ensures { result ≡ fnv fnv_start s.now }
{
    fnv1a_128(FNV_START, s.as_bytes())
}

/// The hash of `@`, the module path, `#`, the kind, `#` and the identifier of a type of another crate.
pub fn decl_id_hash_extern(module_path: &str, kind: &str, type_identifier: &str) -> u128
    ensures { result ≡ fnv fnv_start (extern_text module_path.now kind.now type_identifier.now) }
{
    let hash = fnv1a_128(FNV_START, b"@");
    let hash = fnv1a_128(hash, module_path.as_bytes());
    let hash = fnv1a_128(hash, b"#");
    let hash = fnv1a_128(hash, kind.as_bytes());
    let hash = fnv1a_128(hash, b"#");
    fnv1a_128(hash, type_identifier.as_bytes())
}
