// What a frame says.
ghost use Rattle.day.specs.Decoding.{Decoded};

use crate::entry::{Entry, Lost, Site};
use readings::reading::Reading;
use readings::reading::octets::{BATH_TEMPERATURE, READING_KIND};

// What a sound frame says, by the number of its kind, whatever the format, and its user octets.
pub fn decode(site: Site, kind: u8, octets: &[u8]) -> Entry
    ensures { Decoded site kind octets.now result }
{
    if kind != READING_KIND {
        return Err(Lost::Kind(kind));
    }
    let reading = Reading::try_from(octets)?;
    if site == Site::Lab && reading.temperature() != BATH_TEMPERATURE {
        return Err(Lost::NotBath);
    }
    Ok(reading)
}
