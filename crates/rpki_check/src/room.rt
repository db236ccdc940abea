//! What a call leaves in the room that its caller lends.

ghost use Rattle.rpki_check.specs.Room.{IsInRoom};

/// Puts items into a room, all of them, if it has room for them, and says how many there are.
pub fn put<X: Copy>(items: &[X], room: &mut [X], len: &mut usize)
    ensures { IsInRoom items.now room.old room.new len.new }
{
    *len = items.len();
    if items.len() <= room.len() {
        room[..items.len()].copy_from_slice(items);
    }
}
