//! Laws of the definitions, as contracts of functions that do nothing.

ghost use Rattle.rohc_lsb.specs.Interval.{OneValue, WindowAgrees};
ghost use Rattle.rohc_lsb.specs.Fields.{OneSn, OneTimestamp, OneIdentification};

/// Bits mean exactly one value against a reference (RFC 3095 4.5.1).
pub fn one_value()
    ensures { OneValue }
{}

/// If bits mean the same value against the least and the greatest reference of a window, they mean it
/// against each reference of the window (RFC 3095 4.5.2).
pub fn window_agrees()
    ensures { WindowAgrees }
{}

/// Against a reference and a shift, bits mean exactly one sequence number, at exactly one number of
/// steps from the reference (RFC 3095 4.5.1).
pub fn one_sn()
    ensures { OneSn }
{}

/// Exactly one timestamp agrees: without bits, with scaled bits and with unscaled bits (RFC 3095
/// 4.5.3).
pub fn one_timestamp()
    ensures { OneTimestamp }
{}

/// Exactly one 16-bit Identification agrees: with bits of its offset and without (RFC 3095 4.5.5).
pub fn one_identification()
    ensures { OneIdentification }
{}
