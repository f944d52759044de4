//! What stands in front of a header, and its first octets: padding, feedback, CIDs (RFC 3095 5.2, RFC 5795 5).

ghost use Rattle.std.specs.Prelude.{◌≡◌};

use crate::field::FieldName;
use crate::telling::{Stop, Telling};
use rohc_frame::CidKind;

impl Telling<'_> {
    /// Tells padding and feedback elements, up to the first other octet.
    pub(crate) fn front(&mut self) -> Result<(), Stop>
        ensures kept { self.new.octets.now ≡ self.old.octets.now }
    {
        for _ in 0..self.octets.len() {
            match self.next_octet() {
                Some(0xe0) => {
                    self.tell(FieldName::Padding, 8)?;
                }
                Some(0xf0..=0xf7) => self.element()?,
                _ => return Ok(()),
            }
        }
        Ok(())
    }

    /// Tells a feedback element.
    fn element(&mut self) -> Result<(), Stop>
        ensures kept { self.new.octets.now ≡ self.old.octets.now }
    {
        self.tell(FieldName::FeedbackType, 5)?;
        let code = self.tell(FieldName::Code, 3)?;
        let size = if code == 0 {
            self.tell(FieldName::Size, 8)?
        } else {
            code
        };
        for _ in 0..size {
            self.tell(FieldName::FeedbackData, 8)?;
        }
        Ok(())
    }

    /// Tells an Add-CID octet, if one is there.
    pub(crate) fn add_cid(&mut self, size: CidKind) -> Result<(), Stop>
        ensures kept { self.new.octets.now ≡ self.old.octets.now }
    {
        if matches!(
            (size, self.next_octet()),
            (CidKind::Small, Some(0xe1..=0xef))
        ) {
            self.tell(FieldName::AddCid, 4)?;
            self.tell(FieldName::Cid, 4)?;
        }
        Ok(())
    }

    /// Tells a large CID on a link of large CIDs: one octet, or two that begin with the bits 10.
    pub(crate) fn large_cid(&mut self, size: CidKind) -> Result<(), Stop>
        ensures kept { self.new.octets.now ≡ self.old.octets.now }
    {
        let (length, count) = match (size, self.next_octet()) {
            (CidKind::Small, _) => return Ok(()),
            (CidKind::Large, Some(0x00..=0x7f)) => (1, 7),
            (CidKind::Large, Some(0x80..=0xbf)) => (2, 14),
            (CidKind::Large, _) => return Err(Stop::Short),
        };
        self.tell(FieldName::Length, length)?;
        self.tell(FieldName::Cid, count)?;
        Ok(())
    }
}
