// What keeps an object: a lock, or a cell of one thread.
use std::cell::{RefCell, RefMut};
use std::hint::spin_loop;
use std::sync::{Mutex, MutexGuard, Wait};

/// What keeps a value: a `Mutex`, for threads that share it, or a `RefCell`, for one thread, which then takes
/// no lock. What is kept is known by its type alone.
pub trait Keeper<T>: Sized {
    /// Keeps the value.
    fn keep(value: T) -> Self;

    /// Goes in, for as long as what comes back lives. It waits until nobody else is in.
    fn enter<'a, R: Wait>(&'a self, rt: &R) -> Entered<'a, T>;

    /// The value, for the only one who has it.
    fn value_mut(&mut self) -> &mut T;

    /// The value, when nobody is in any more.
    fn into_value(self) -> T;
}

/// Who has one is alone with the value.
#[derive(Drop)]
pub enum Entered<'a, T> {
    /// Under a lock.
    Locked(MutexGuard<'a, T>),
    /// In a cell.
    Borrowed(RefMut<'a, T>),
}

impl<T> Entered<'_, T> {
    /// The value.
    #[inline(always)]
    pub fn value_mut(&mut self) -> &mut T {
        match self {
            Entered::Locked(guard) => guard,
            Entered::Borrowed(cell) => cell,
        }
    }
}

impl<T> Keeper<T> for Mutex<T> {
    fn keep(value: T) -> Mutex<T> {
        Mutex::new(value)
    }

    #[inline(always)]
    fn enter<'a, R: Wait>(&'a self, rt: &R) -> Entered<'a, T> {
        Entered::Locked(take_lock(self, rt))
    }

    #[inline(always)]
    fn value_mut(&mut self) -> &mut T {
        self.get_mut()
    }

    fn into_value(self) -> T {
        self.into_inner()
    }
}

impl<T> Keeper<T> for RefCell<T> {
    fn keep(value: T) -> RefCell<T> {
        RefCell::new(value)
    }

    #[inline(always)]
    fn enter<'a, R: Wait>(&'a self, rt: &R) -> Entered<'a, T> {
        match self.try_borrow_mut() {
            Ok(cell) => Entered::Borrowed(cell),
            // Who is in would have to leave, and is this thread itself.
            Err(_) => wait_without_end(rt),
        }
    }

    #[inline(always)]
    fn value_mut(&mut self) -> &mut T {
        self.get_mut()
    }

    fn into_value(self) -> T {
        self.into_inner()
    }
}

// How often a lock is tried before a thread falls asleep.
const TRIES: u32 = 2000;

// Takes a lock. What is done under it is short, and to wake a thread takes much longer: so it is tried for a while first.
#[inline(always)]
fn take_lock<'a, T, R: Wait>(lock: &'a Mutex<T>, rt: &R) -> MutexGuard<'a, T> {
    match lock.try_lock() {
        Some(guard) => guard,
        None => try_for_a_while(lock, rt),
    }
}

#[cold]
fn try_for_a_while<'a, T, R: Wait>(lock: &'a Mutex<T>, rt: &R) -> MutexGuard<'a, T> {
    for _ in 0..TRIES {
        if let Some(guard) = lock.try_lock() {
            return guard;
        }
        spin_loop();
    }
    lock.lock(rt)
}

// Never returns. What is kept is known by their type alone, which has no numbers in it: that the
// object that is kept is the one that `new` put there is looked up, and where it weren't, a call would
// answer nothing rather than something wrong.
pub(crate) fn wait_without_end<R: Wait>(rt: &R) -> ! {
    for _ in rt.forever() {}
    unreachable!()
}
