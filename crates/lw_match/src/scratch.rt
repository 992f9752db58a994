// What searches at many classes use again: the binding that they begin with, and room for rows.
use lw_branch::Unbound;
use lw_join::Room;
use std::alloc::{AllocError, Global};

/// The binding that searches begin with, and the room for the rows of patterns for which a search
/// takes long. Without a room these are searched too.
#[derive(Drop)]
pub struct Scratch {
    pub(crate) unbound: Unbound,
    pub(crate) room: Option<Room>,
}

impl Scratch {
    /// No room.
    pub fn new() -> Self {
        Scratch {
            unbound: Unbound::new(),
            room: None,
        }
    }

    /// A room, whose memory is taken now.
    pub fn with_room(alloc: Global) -> Result<Self, AllocError> {
        Ok(Scratch {
            unbound: Unbound::new(),
            room: Some(Room::new(alloc)?),
        })
    }
}
