// FT2 as a format that writes.
use crate::format::Ft2;
use crate::frame::Frame;
use formats::format::WriteFormat;
use formats::refusal::WriteRefusal;
use ft2_laws::kind::Kind;

impl WriteFormat for Ft2 {
    fn write(&self, kind: u8, octets: &[u8], marks: &mut [u8]) -> Result<usize, WriteRefusal> {
        let kind = Kind::try_from(kind)?;
        Frame::new(self.settings, kind, octets)?.put(marks)
    }
}
