//! Rooms that C lends for what a call gives.
ghost use Rattle.std.specs.Prelude.{◌≡◌, ◌<◌, ◌≤◌, length, false, true};
ghost use Rattle.isp_reports.specs.Rooms.{Gives, fronted};

use crate::refusal::Refusal;
use crate::report::{Report, done, refuse};

/// Writes bytes at the front of a room, where it has room for them; whether it has. The bytes after them stay.
pub fn put(bytes: &[u8], room: &mut [u8]) -> bool
    ensures whole { result ≡ true → (length bytes.now ≤ length room.old) × (room.new ≡ fronted bytes.now room.old) }
    ensures short { result ≡ false → (length room.old < length bytes.now) × (room.new ≡ room.old) }
{
    if room.len() < bytes.len() {
        return false;
    }
    let front = &mut room[..bytes.len()];
    front.copy_from_slice(bytes);
    true
}

/// Writes the bytes that a call gives at the front of its room, how many they are to `report.used`, and gives the status 0; or 10, where the room
/// has fewer bytes: then it stays as it was, and `report.used` is how many are wanted.
pub fn give(bytes: &[u8], room: &mut [u8], report: &mut Report) -> u8
    ensures { Gives bytes.now room.old room.new report.new result }
{
    if !put(bytes, room) {
        return refuse(&Refusal::Short, bytes.len(), report);
    }
    done(bytes.len(), 0, report)
}
