//! Seats, where each sleeper sleeps until somebody rings or bytes come.

use crate::sleeper::Sleeper;
use crate::wakes::{BITS, FREE, Wakes};
use fs_text::Memory;
use libc::net;
use libc::types::pollfd;
use std::alloc::Global;
use std::sync::atomic::{AtomicBool, AtomicI64, AtomicU64, Ordering};

// In place of a descriptor. A poll passes over it.
const NONE: i32 = -1;

// Where somebody sleeps. Whoever has something for the sleeper rings afterwards.
pub(crate) struct Seat {
    bell: i32,
    rung: AtomicBool,
    is_asleep: AtomicBool,
    // The connection that is served here.
    conn: AtomicU64,
    // The descriptor of the socket that had no more bytes for now.
    dry: AtomicI64,
    // A wait for a write may have taken a ring.
    has_waited: AtomicBool,
}

impl Drop for Seat {
    fn drop(self) {
        let Seat {
            bell,
            rung: _rung,
            is_asleep: _is_asleep,
            conn: _conn,
            dry: _dry,
            has_waited: _has_waited,
        } = self;
        libc::close(bell);
    }
}

impl Seat {
    // A seat, if the system has a descriptor for its bell.
    fn new() -> Option<Seat> {
        let bell = net::eventfd(0, net::EFD_CLOEXEC | net::EFD_NONBLOCK);
        if bell < 0 {
            return None;
        }
        Some(Seat {
            bell,
            rung: AtomicBool::new(false),
            is_asleep: AtomicBool::new(false),
            conn: AtomicU64::new(u64::from(FREE)),
            dry: AtomicI64::new(i64::from(NONE)),
            has_waited: AtomicBool::new(false),
        })
    }

    // Wakes the sleeper, or keeps it from its next sleep.
    fn ring(&self) {
        self.rung.store(true, Ordering::SeqCst);
        if self.is_asleep.swap(false, Ordering::SeqCst) {
            libc::write(self.bell, &1u64.to_ne_bytes());
        }
    }

    // This connection is served here.
    pub(crate) fn serve(&self, conn: u32) {
        self.conn.store(u64::from(conn), Ordering::SeqCst);
    }

    // Whether whoever sleeps here is to be woken for its connection.
    fn is_named_by(&self, wakes: &Wakes) -> bool {
        let conn = self.conn.load(Ordering::SeqCst);
        wakes.has_conn(u32::try_from(conn).unwrap_or(FREE))
    }

    // The socket has nothing for now, so that the next sleep ends where something comes.
    pub(crate) fn set_dry(&self, socket: i32) {
        self.dry.store(i64::from(socket), Ordering::SeqCst);
    }

    // No socket ends the next sleep.
    pub(crate) fn forget_dry(&self) {
        self.dry.store(i64::from(NONE), Ordering::SeqCst);
    }

    // Sleeps until somebody rings, or something comes to a socket that was dry, or the time is up. After a wait for a
    // write it does not sleep, so that the sleeper looks again.
    pub(crate) fn sleep(&self, millis: u64) {
        let dry = self.dry.swap(i64::from(NONE), Ordering::SeqCst);
        if self.has_waited.swap(false, Ordering::SeqCst) {
            return;
        }
        let millis = i32::try_from(millis).unwrap_or(i32::MAX);
        self.wait(i32::try_from(dry).unwrap_or(NONE), net::POLLIN, millis);
    }

    // Sleeps until somebody rings, or the socket takes bytes, or the time is up.
    pub(crate) fn wait_writable(&self, socket: i32, millis: i32) {
        self.wait(socket, net::POLLOUT, millis);
        self.has_waited.store(true, Ordering::SeqCst);
    }

    // Sleeps until somebody rings, or the socket has bytes, or the time is up.
    pub(crate) fn wait_readable(&self, socket: i32, millis: i32) {
        self.wait(socket, net::POLLIN, millis);
        self.has_waited.store(true, Ordering::SeqCst);
    }

    // The sleeper looks again after each wait, so that no ring is lost.
    fn wait(&self, socket: i32, events: i16, millis: i32) {
        self.is_asleep.store(true, Ordering::SeqCst);
        if !self.rung.swap(false, Ordering::SeqCst) {
            self.poll(socket, events, millis);
            self.rung.store(false, Ordering::SeqCst);
        }
        self.is_asleep.store(false, Ordering::SeqCst);
    }

    fn poll(&self, socket: i32, events: i16, millis: i32) {
        let mut polled = [
            pollfd {
                fd: self.bell,
                events: net::POLLIN,
                revents: 0,
            },
            pollfd {
                fd: socket,
                events,
                revents: 0,
            },
        ];
        net::poll(&mut polled, millis);
        if polled[0].revents != 0 {
            libc::read(self.bell, &mut [0u8; 8]);
        }
    }
}

/// The seats of a server.
#[derive(Drop)]
pub struct Bells {
    door: Seat,
    jobs: Seat,
    slots: Vec<Seat>,
    lanes: Vec<Seat>,
}

impl Bells {
    /// Seats for so many slots, numbered from 0 on, and so many lanes for links, if the system has the descriptors.
    pub fn new(alloc: Global, slots: usize, lanes: usize) -> Result<Option<Bells>, Memory> {
        let (Some(slots), Some(lanes)) = (seats(alloc, slots)?, seats(alloc, lanes)?) else {
            return Ok(None);
        };
        let (Some(door), Some(jobs)) = (Seat::new(), Seat::new()) else {
            return Ok(None);
        };
        Ok(Some(Bells {
            door,
            jobs,
            slots,
            lanes,
        }))
    }

    // The seat at the door, where whoever has no seat sits, too.
    pub(crate) fn door(&self) -> &Seat {
        &self.door
    }

    // The seat of a sleeper.
    pub(crate) fn seat(&self, sleeper: Sleeper) -> &Seat {
        let seat = match sleeper {
            Sleeper::Door => None,
            Sleeper::Jobs => Some(&self.jobs),
            Sleeper::Slot(slot) => self.slots.get(usize::from(slot)),
            Sleeper::Lane(lane) => self.lanes.get(usize::from(lane)),
        };
        seat.unwrap_or(&self.door)
    }

    // Rings for these, but not at the seat of who rings.
    pub(crate) fn ring(&self, wakes: &Wakes, own: &Seat) {
        let is_everybody = wakes.is_everybody();
        if is_everybody {
            ring_other(&self.door, own);
        }
        if is_everybody || wakes.has_jobs() {
            ring_other(&self.jobs, own);
        }
        self.ring_slots(wakes, own);
        if is_everybody || wakes.has_conns() {
            self.ring_lanes(wakes, own);
        }
    }

    // Where none of the slots of a word is named, they are passed over at once.
    fn ring_slots(&self, wakes: &Wakes, own: &Seat) {
        let mut first: u16 = 0;
        for seats in self.slots.chunks(usize::from(BITS)) {
            if wakes.is_everybody() || wakes.has_slot_beside(first) {
                ring_from(first, seats, wakes, own);
            }
            first = first.saturating_add(BITS);
        }
    }

    // At a seat where no connection is served sits whoever is free.
    fn ring_lanes(&self, wakes: &Wakes, own: &Seat) {
        for seat in &self.lanes {
            if wakes.is_everybody() || seat.is_named_by(wakes) {
                ring_other(seat, own);
            }
        }
    }
}

// Rings for those of these at the seats of slots, the first of which is this one.
fn ring_from(first: u16, seats: &[Seat], wakes: &Wakes, own: &Seat) {
    let mut slot = first;
    for seat in seats {
        if wakes.is_everybody() || wakes.has_slot(slot) {
            ring_other(seat, own);
        }
        slot = slot.saturating_add(1);
    }
}

// So many seats, if the system has the descriptors.
fn seats(alloc: Global, count: usize) -> Result<Option<Vec<Seat>>, Memory> {
    let mut seats = Vec::with_capacity(alloc, count)?;
    for _ in 0..count {
        let Some(seat) = Seat::new() else {
            return Ok(None);
        };
        seats.push(seat)?;
    }
    Ok(Some(seats))
}

// Rings at a seat, unless it is one's own.
fn ring_other(seat: &Seat, own: &Seat) {
    if seat.bell != own.bell {
        seat.ring();
    }
}
