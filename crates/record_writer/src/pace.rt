use std::sync::atomic::{AtomicBool, Ordering};

/// How the work on the windows before gets on, which the threads that encode and put them tell the one that takes another. Own.
#[derive(Drop)]
pub(crate) struct Pace {
    encoding: AtomicBool,
    putting: AtomicBool,
    failed: AtomicBool,
}

impl Pace {
    /// No window is to be encoded or put yet.
    pub fn new() -> Pace {
        Pace {
            encoding: AtomicBool::new(false),
            putting: AtomicBool::new(false),
            failed: AtomicBool::new(false),
        }
    }

    /// A window is to be encoded.
    pub fn begin_encode(&self) {
        self.encoding.store(true, Ordering::SeqCst);
    }

    /// It was encoded, or that failed.
    pub fn end_encode(&self) {
        self.encoding.store(false, Ordering::SeqCst);
    }

    /// A window is to be put.
    pub fn begin_put(&self) {
        self.putting.store(true, Ordering::SeqCst);
    }

    /// It was put, or that failed.
    pub fn end_put(&self, failed: bool) {
        self.failed.store(failed, Ordering::SeqCst);
        self.putting.store(false, Ordering::SeqCst);
    }

    /// Whether a window isn't encoded or put yet that is to be.
    pub fn is_behind(&self) -> bool {
        self.encoding.load(Ordering::SeqCst) || self.putting.load(Ordering::SeqCst)
    }

    /// Whether its put failed, so that nothing more is to be taken.
    pub fn has_failed(&self) -> bool {
        self.failed.load(Ordering::SeqCst)
    }
}
