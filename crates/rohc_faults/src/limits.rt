//! The limits of an entry's settings.

ghost use Rattle.std.specs.Prelude.{◌≡◌, IfOk};
ghost use Rattle.rohc_concentrator.specs.Setting.{are_in_order};
ghost use Rattle.rohc_faults.specs.Limits.{is_within, limited_keys, keys_beyond};

use rohc_concentrator::{CidRange, LinkSetting};
use rohc_links::Key;
use std::alloc::{AllocError, Global};

/// The keys whose values have limits, in the order of `Key`.
const LIMITED: [Key; 9] = [
    Key::MaxCid,
    Key::K1,
    Key::N1,
    Key::K2,
    Key::N2,
    Key::PacketMs,
    Key::StaticNackMs,
    Key::IdleMs,
    Key::Range,
];

/// The keys whose values have limits.
fn limited_keys() -> &'static [Key]
    ensures { result.now ≡ limited_keys }
{
    &LIMITED
}

/// Whether each range goes from low to high within `max_cid`, and starts above the one before it.
fn are_in_order(ranges: &[CidRange], max_cid: u16) -> bool
    ensures { result ≡ are_in_order 0 max_cid ranges.now }
{
    let mut least = 0u32;
    for range in ranges {
        if u32::from(range.first) < least || range.last < range.first || max_cid < range.last {
            return false;
        }
        least = u32::from(range.last) + 1;
    }
    true
}

/// Whether what is set at the key is within its limits.
fn is_within(setting: &LinkSetting, key: Key) -> bool
    ensures { result ≡ is_within key setting.now }
{
    let settings = &setting.settings;
    match key {
        Key::MaxCid => settings.max_cid <= settings.size.greatest_cid(),
        Key::K1 => 1 <= settings.k1 && settings.k1 <= settings.n1,
        Key::N1 => 1 <= settings.n1 && settings.n1 <= 64,
        Key::K2 => 1 <= settings.k2 && settings.k2 <= settings.n2,
        Key::N2 => 1 <= settings.n2 && settings.n2 <= 64,
        Key::PacketMs => 1 <= settings.packet_ms && settings.packet_ms <= 60_000,
        Key::StaticNackMs => settings.static_nack_ms <= 3_600_000,
        Key::IdleMs => settings.idle_ms <= 86_400_000,
        Key::Range => are_in_order(&setting.ranges, settings.max_cid),
        _ => true,
    }
}

/// The keys whose values are outside their limits, in the order of `Key`. There are none exactly if the setting is good.
pub fn keys_beyond(alloc: Global, setting: &LinkSetting) -> Result<Vec<Key>, AllocError>
    ensures { IfOk result (λ keys. keys.items ≡ keys_beyond setting.now) }
{
    let mut beyond = Vec::new(alloc);
    for key in limited_keys() {
        if !is_within(setting, *key) {
            beyond.push(*key)?;
        }
    }
    Ok(beyond)
}
