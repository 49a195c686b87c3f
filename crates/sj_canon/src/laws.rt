// The law of canonical bytes.
ghost use Rattle.sj_canon.specs.Methods.{CanonicalBytesDecide};

/// The canonical bytes of two methods are the same exactly where the methods are equal apart from positions and stored hashes.
pub fn canonical_bytes_decide()
    ensures { CanonicalBytesDecide }
{}
