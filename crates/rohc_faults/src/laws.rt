//! Laws of the faults, as contracts of functions that do nothing.

ghost use Rattle.rohc_faults.specs.Limits.{FindsBeyond};
ghost use Rattle.rohc_faults.specs.Read.{TellsUnread};

/// A setting has a key outside its limits exactly if a concentrator refuses it.
pub fn beyond_is_refused()
    ensures { FindsBeyond }
{}

/// A file has an unknown name, or a key that is missing or wrong, exactly if `read_links` refuses it.
pub fn unread_is_told()
    ensures { TellsUnread }
{}
