//! Who is to be woken.

/// So many slots have a bit in a word.
pub(crate) const BITS: u16 = 64;

// Bits for the slots 0 to 319.
const WORDS: usize = 5;

// So many connections are named one by one.
const CONNS: usize = 16;

/// Who is to be woken, since there may be something to do. Whoever is woken in vain sleeps again, and whoever is not
/// woken looks again a while later.
#[derive(Clone, Copy, Debug, PartialEq, Eq)]
pub struct Wakes {
    is_everybody: bool,
    has_jobs: bool,
    slots: [u64; WORDS],
    conns: [u32; CONNS],
    conn_count: usize,
}

impl Wakes {
    /// Nobody.
    pub fn nobody() -> Wakes {
        Wakes {
            is_everybody: false,
            has_jobs: false,
            slots: [0; WORDS],
            conns: [0; CONNS],
            conn_count: 0,
        }
    }

    /// Everybody.
    pub fn everybody() -> Wakes {
        let mut wakes = Wakes::nobody();
        wakes.is_everybody = true;
        wakes
    }

    /// Whoever waits for a connection to serve.
    pub fn whoever_is_free() -> Wakes {
        let mut wakes = Wakes::nobody();
        wakes.add_conn(FREE);
        wakes
    }

    /// Whoever works the jobs, too.
    pub fn add_jobs(&mut self) {
        self.has_jobs = true;
    }

    /// Whoever works this slot, too.
    pub fn add_slot(&mut self, slot: u16) {
        match self.slots.get_mut(usize::from(slot / BITS)) {
            Some(word) => *word |= bit_of(slot),
            None => self.is_everybody = true,
        }
    }

    /// Whoever serves this connection, too.
    pub fn add_conn(&mut self, conn: u32) {
        match self.conns.get_mut(self.conn_count) {
            Some(place) => {
                *place = conn;
                self.conn_count = self.conn_count.saturating_add(1);
            }
            None => self.is_everybody = true,
        }
    }

    /// Whether nobody is to be woken.
    pub fn is_nobody(&self) -> bool {
        *self == Wakes::nobody()
    }

    /// Whether everybody is to be woken.
    pub fn is_everybody(&self) -> bool {
        self.is_everybody
    }

    /// Whether whoever works the jobs is to be woken.
    pub fn has_jobs(&self) -> bool {
        self.has_jobs
    }

    /// Whether whoever works this slot is to be woken.
    pub fn has_slot(&self, slot: u16) -> bool {
        match self.slots.get(usize::from(slot / BITS)) {
            Some(word) => word & bit_of(slot) != 0,
            None => false,
        }
    }

    /// Whether whoever works a slot is to be woken that has its bit in one word with this one.
    pub(crate) fn has_slot_beside(&self, slot: u16) -> bool {
        match self.slots.get(usize::from(slot / BITS)) {
            Some(word) => *word != 0,
            None => false,
        }
    }

    /// Whether whoever serves some connection is to be woken.
    pub(crate) fn has_conns(&self) -> bool {
        self.conn_count > 0
    }

    /// Whether whoever serves this connection is to be woken.
    pub fn has_conn(&self, conn: u32) -> bool {
        self.conns
            .iter()
            .take(self.conn_count)
            .any(|it| *it == conn)
    }
}

/// In place of the number of a connection, where none is served.
pub(crate) const FREE: u32 = 0;

fn bit_of(slot: u16) -> u64 {
    1u64.wrapping_shl(u32::from(slot % BITS))
}
