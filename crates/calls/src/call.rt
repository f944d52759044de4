//! Calls in words.

use crate::setting::read_setting;
use crate::words::Words;
use rohc_concentrator::LinkSetting;

/// A call that changes a concentrator, other than an arrival.
#[derive(Drop)]
pub(crate) enum Call {
    Reset {
        link: u16,
    },
    Forget {
        link: u16,
        cid: u16,
    },
    Expire {
        link: u16,
        moment: u64,
    },
    Add(LinkSetting),
    Change(LinkSetting),
    Remove {
        link: u16,
    },
    /// The context of another CID is put, as it comes back from its octets.
    Put {
        link: u16,
        cid: u16,
        from_link: u16,
        from_cid: u16,
    },
}

impl Call {
    /// The call that a line is. It is `None` for an arrival and for any other line.
    pub(crate) fn of(line: &[u8]) -> Option<Self> {
        let mut words = Words::of(str::from_utf8(line).ok()?);
        let name = words.text()?;
        let call = read_call(name, &mut words)?;
        if words.is_at_end() { Some(call) } else { None }
    }

    /// The word by which the call is known.
    pub(crate) fn name(&self) -> &'static str {
        match self {
            Call::Reset { .. } => "reset",
            Call::Forget { .. } => "forget",
            Call::Expire { .. } => "expire",
            Call::Add(_) => "add",
            Call::Change(_) => "change",
            Call::Remove { .. } => "remove",
            Call::Put { .. } => "put",
        }
    }

    /// The link that the call is for.
    pub(crate) fn link(&self) -> u16 {
        match self {
            Call::Reset { link }
            | Call::Forget { link, .. }
            | Call::Expire { link, .. }
            | Call::Remove { link }
            | Call::Put { link, .. } => *link,
            Call::Add(setting) | Call::Change(setting) => setting.link,
        }
    }
}

/// The call of this name with the next words.
fn read_call(name: &str, words: &mut Words<'_>) -> Option<Call> {
    match name {
        "reset" => Some(Call::Reset {
            link: words.short()?,
        }),
        "forget" => Some(Call::Forget {
            link: words.short()?,
            cid: words.short()?,
        }),
        "expire" => Some(Call::Expire {
            link: words.short()?,
            moment: words.long()?,
        }),
        "add" => Some(Call::Add(read_setting(words)?)),
        "change" => Some(Call::Change(read_setting(words)?)),
        "remove" => Some(Call::Remove {
            link: words.short()?,
        }),
        "put" => Some(Call::Put {
            link: words.short()?,
            cid: words.short()?,
            from_link: words.short()?,
            from_cid: words.short()?,
        }),
        _ => None,
    }
}
