//! What the definitions imply.

ghost use Rattle.def_satisfaction.specs.Laws.{SatIsFullSat, DsatIsFullDsat, OnlyIsAny, DsatNeedsNoSignature, SatIsOfBytes, DsatIsOfBytes};

/// The canonical rows are among all rows, and what counts under a narrow setting counts under a wider one.
pub fn rows()
    ensures sat { SatIsFullSat }
    ensures dsat { DsatIsFullDsat }
    ensures only { OnlyIsAny }
    ensures unsigned { DsatNeedsNoSignature }
{}

/// Canonical satisfactions and dissatisfactions consist of bytes, as keys, signatures and preimages do.
pub fn items()
    ensures sat { SatIsOfBytes }
    ensures dsat { DsatIsOfBytes }
{}
