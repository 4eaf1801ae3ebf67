//! Devices whose calls are counted.
use ae_ports::{Failed, Sink, Source, Store, Word};
use std::cell::Cell;

/// The devices of the top call.
#[derive(Clone, Copy, Debug, PartialEq, Eq)]
pub enum Device {
    Store,
    Input,
    Out,
    /// The second output.
    Err,
    /// The sink of a machine's events.
    Events,
}

/// How many calls each device had.
#[derive(Drop)]
pub struct Counts {
    store: Cell<u64>,
    input: Cell<u64>,
    out: Cell<u64>,
    err: Cell<u64>,
    events: Cell<u64>,
    has_failed: Cell<bool>,
    late: Cell<u64>,
}

impl Counts {
    /// No calls.
    pub fn new() -> Counts {
        Counts {
            store: Cell::new(0),
            input: Cell::new(0),
            out: Cell::new(0),
            err: Cell::new(0),
            events: Cell::new(0),
            has_failed: Cell::new(false),
            late: Cell::new(0),
        }
    }

    /// The number of calls of a device.
    pub fn of(&self, device: Device) -> u64 {
        match device {
            Device::Store => self.store.get(),
            Device::Input => self.input.get(),
            Device::Out => self.out.get(),
            Device::Err => self.err.get(),
            Device::Events => self.events.get(),
        }
    }

    /// The numbers of the calls of the input, the outputs and the sink of events.
    pub fn all(&self) -> [u64; 4] {
        [
            self.input.get(),
            self.out.get(),
            self.err.get(),
            self.events.get(),
        ]
    }

    /// How many calls there were behind the first that failed, but for those of the second output.
    pub fn late(&self) -> u64 {
        self.late.get()
    }

    fn begin(&self, device: Device) {
        if self.has_failed.get() && device != Device::Err {
            count(&self.late);
        }
        match device {
            Device::Store => count(&self.store),
            Device::Input => count(&self.input),
            Device::Out => count(&self.out),
            Device::Err => count(&self.err),
            Device::Events => count(&self.events),
        }
    }

    fn end(&self, is_ok: bool) {
        if !is_ok {
            self.has_failed.set(true);
        }
    }
}

fn count(calls: &Cell<u64>) {
    calls.set(calls.get().saturating_add(1));
}

/// A device with its calls counted. All else is as the device has it.
#[derive(Drop)]
pub struct Counted<'a, D> {
    inner: D,
    counts: &'a Counts,
    device: Device,
}

impl<'a, D> Counted<'a, D> {
    /// The device, counted here as this one.
    pub fn new(inner: D, counts: &'a Counts, device: Device) -> Counted<'a, D> {
        Counted {
            inner,
            counts,
            device,
        }
    }

    /// The device itself, to look at.
    pub fn inner(&self) -> &D {
        &self.inner
    }

    /// The device itself, to call it without being counted.
    pub fn inner_mut(&mut self) -> &mut D {
        &mut self.inner
    }
}

impl<S: Store> Store for Counted<'_, S> {
    ghost told = { λ counted. S.told counted.inner };

    ghost faults = { λ counted. S.faults counted.inner };

    ghost same_rest = { λ one two. S.same_rest one.inner two.inner };

    fn size(&mut self, name: &Word) -> Result<Option<u64>, Failed> {
        self.counts.begin(self.device);
        let answer = self.inner.size(name);
        self.counts.end(answer.is_ok());
        answer
    }

    fn get(&mut self, name: &Word, from: u64, buf: &mut [u8]) -> Result<usize, Failed> {
        self.counts.begin(self.device);
        let answer = self.inner.get(name, from, buf);
        self.counts.end(answer.is_ok());
        answer
    }

    fn make(&mut self, name: &Word) -> Result<(), Failed> {
        self.counts.begin(self.device);
        let answer = self.inner.make(name);
        self.counts.end(answer.is_ok());
        answer
    }

    fn add(&mut self, name: &Word, bytes: &[u8]) -> Result<(), Failed> {
        self.counts.begin(self.device);
        let answer = self.inner.add(name, bytes);
        self.counts.end(answer.is_ok());
        answer
    }

    ghost rest_stays = { λ counted. S.rest_stays counted.inner };

    ghost rest_joins = { λ one two three first second. S.rest_joins one.inner two.inner three.inner first second };
}

impl<I: Source> Source for Counted<'_, I> {
    ghost told = { λ counted. I.told counted.inner };

    ghost faults = { λ counted. I.faults counted.inner };

    ghost same_rest = { λ one two. I.same_rest one.inner two.inner };

    fn read(&mut self, buf: &mut [u8]) -> Result<usize, Failed> {
        self.counts.begin(self.device);
        let answer = self.inner.read(buf);
        self.counts.end(answer.is_ok());
        answer
    }

    ghost rest_stays = { λ counted. I.rest_stays counted.inner };

    ghost rest_joins = { λ one two three first second. I.rest_joins one.inner two.inner three.inner first second };
}

impl<K: Sink> Sink for Counted<'_, K> {
    ghost told = { λ counted. K.told counted.inner };

    ghost faults = { λ counted. K.faults counted.inner };

    ghost same_rest = { λ one two. K.same_rest one.inner two.inner };

    fn write(&mut self, bytes: &[u8]) -> Result<usize, Failed> {
        self.counts.begin(self.device);
        let answer = self.inner.write(bytes);
        self.counts.end(answer.is_ok());
        answer
    }

    ghost rest_stays = { λ counted. K.rest_stays counted.inner };

    ghost rest_joins = { λ one two three first second. K.rest_joins one.inner two.inner three.inner first second };
}
