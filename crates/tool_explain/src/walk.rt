//! The walk over the input, one head at a time. The open frames are in a list, so that the input
//! doesn't choose how much stack the walk takes.

ghost use Rattle.std.specs.Prelude.{◌≡◌, ◌≤◌, ◌+◌, ◌*◌, IfOk, OnOk};
ghost use Rattle.tool_explain.specs.Column.{whole, shown};

use crate::about::About;
use crate::column::Column;
use crate::cover::of_next;
use crate::faults::Fault;
use crate::frame::{Container, Frame, content};
use crate::head::head_fault;
use crate::hunt::Hunt;
use crate::opening::{claims_refusal, opened_part, opening, push_opening};
use crate::paths::path;
use crate::role::Role;
use crate::text::{push_leaf, width_mark};
use crate::{authenticator, note, refusal};
use coset::CoseError;
use coset::cbor::de::Pull;
use coset::cbor::head::{Head, read_head};
use std::alloc::{AllocError, Global};

/// The number of open frames if the next item is a key of a set: the input and the set.
const KEYS: usize = 2;

/// The most nested byte strings that are opened for their messages and claims.
const OPENINGS: u32 = 16;

/// The state of the walk.
#[derive(Drop)]
pub(crate) struct Walk<'a, 'e> {
    /// The whole input.
    pub(crate) bytes: &'a [u8],
    pub(crate) column: Column<'a>,
    /// What the summary says of the input so far.
    pub(crate) about: About,
    /// The open frames, from the input on. If the walk ended at a fault, the last frame has it.
    pub(crate) open: Vec<Frame>,
    /// The search for the fault.
    pub(crate) hunt: Hunt<'e>,
    /// The moment for which a token's times are judged, in seconds since 1970 began.
    now: Option<i64>,
    /// The fault at which the walk ended, if it did.
    pub(crate) fault: Option<Fault>,
    /// Whether the walk goes on after a fault if it can.
    goes_on: bool,
    /// The offset and the kind of the first fault after which the walk went on.
    pub(crate) first: Option<(usize, Fault)>,
    /// The error of each key of a set; `None` for a key that is accepted.
    keys: &'e [Option<CoseError>],
    /// The number of input bytes after the key that was begun last.
    behind_key: usize,
    /// Whether the rest of that key comes next.
    skips_key: bool,
}

/// Returns the bytes from the position on that belong to the frame.
fn within<'a>(column: &Column<'a>, frame: &Frame) -> &'a [u8] {
    let ahead = column.ahead();
    let (bytes, _) = ahead.split_at(ahead.len().saturating_sub(frame.behind));
    bytes
}

impl<'a, 'e> Walk<'a, 'e> {
    /// Begins a walk at the front of the bytes, which have this role.
    pub(crate) fn new(
        alloc: Global,
        bytes: &'a [u8],
        role: Role,
        hunt: Hunt<'e>,
        now: Option<i64>,
    ) -> Result<Walk<'a, 'e>, AllocError>
        ensures whole { IfOk result (λ w. whole w.column ≡ bytes.now) }
        ensures lines { IfOk result (λ w. shown w.column ≡ 0) }
        ensures bytes { IfOk result (λ w. w.bytes.now ≡ bytes.now) }
    {
        let mut open = Vec::new(alloc);
        open.push(Frame::input(role, 0))?;
        Ok(Walk {
            bytes,
            column: Column::new(alloc, bytes),
            about: About::new(alloc),
            open,
            hunt,
            now,
            fault: None,
            goes_on: false,
            first: None,
            keys: &[],
            behind_key: 0,
            skips_key: false,
        })
    }

    /// Begins a walk that opens the content of byte strings, and goes on after faults. `keys` are
    /// the errors of the keys of a set.
    pub(crate) fn through(
        alloc: Global,
        bytes: &'a [u8],
        role: Role,
        hunt: Hunt<'e>,
        keys: &'e [Option<CoseError>],
        now: Option<i64>,
    ) -> Result<Walk<'a, 'e>, AllocError>
        ensures whole { IfOk result (λ w. whole w.column ≡ bytes.now) }
        ensures lines { IfOk result (λ w. shown w.column ≡ 0) }
        ensures bytes { IfOk result (λ w. w.bytes.now ≡ bytes.now) }
    {
        let mut open = Vec::new(alloc);
        open.push(Frame::input(role, OPENINGS))?;
        Ok(Walk {
            bytes,
            column: Column::new(alloc, bytes),
            about: About::new(alloc),
            open,
            hunt,
            now,
            fault: None,
            goes_on: true,
            first: None,
            keys,
            behind_key: 0,
            skips_key: false,
        })
    }

    /// Shows the next head, or the end of a container. Returns true if the walk goes on.
    ///
    /// # Errors
    /// `AllocError` if an allocation fails.
    pub(crate) fn step(&mut self, alloc: Global) -> Result<bool, AllocError>
        ensures whole { OnOk result (whole self.new.column ≡ whole self.old.column) }
        ensures lines { OnOk result (shown self.new.column ≤ shown self.old.column + 1) }
    {
        if self.skips_key {
            return self.skip_key(alloc);
        }
        let Some(frame) = self.open.pop() else {
            return Ok(false);
        };
        let bytes = within(&self.column, &frame);
        if frame.has_ended(bytes) {
            return self.close(alloc, frame, bytes);
        }
        match read_head(bytes) {
            Ok((head, rest)) => self.item(alloc, frame, &head, bytes, rest),
            Err(error) => self.stop(frame, head_fault(&error)),
        }
    }

    /// Ends the walk at this fault.
    fn stop(&mut self, frame: Frame, fault: Fault) -> Result<bool, AllocError>
        ensures column { self.new.column ≡ self.old.column }
    {
        self.fault = Some(fault);
        self.open.push(frame)?;
        Ok(false)
    }

    /// Shows the end of a container.
    fn close(&mut self, alloc: Global, frame: Frame, bytes: &[u8]) -> Result<bool, AllocError>
        ensures whole { OnOk result (whole self.new.column ≡ whole self.old.column) }
        ensures lines { OnOk result (shown self.new.column ≤ shown self.old.column + 1) }
    {
        let holds_one = matches!(frame.container, Container::Input | Container::Embedded);
        if holds_one && !bytes.is_empty() {
            return self.stop(frame, Fault::Extraneous);
        }
        if frame.container == Container::Input {
            return Ok(false);
        }
        if frame.left.is_none() {
            self.column.hold(1);
        }
        let depth = self.open.len().saturating_sub(1);
        let mark = self.mark_behind();
        self.column.cover = frame.cover;
        self.column.text.push_str(frame.end())?;
        self.column.text.push_str(width_mark(frame.width))?;
        self.column.text.push_str(mark)?;
        self.column.end_line(alloc, depth)?;
        Ok(true)
    }

    /// Returns the separator after the container that was closed.
    fn mark_behind(&self) -> &'static str {
        match self.open.last() {
            Some(frame) => frame.mark(within(&self.column, frame)),
            None => "",
        }
    }

    /// Returns the fault of the item at the front of the bytes: one of CBOR, or the one that is
    /// searched for. `rest` are the bytes after its head.
    fn fault_of(
        &mut self,
        alloc: Global,
        frame: &Frame,
        head: &Head,
        bytes: &[u8],
        rest: &[u8],
    ) -> Result<Option<Fault>, AllocError>
        ensures column { self.new.column ≡ self.old.column }
    {
        match frame.fault(head, rest) {
            Some(fault) => Ok(Some(fault)),
            None => {
                let part = opened_part(frame.next_part(), head, rest);
                self.hunt.at(alloc, frame, &part, head, bytes)
            }
        }
    }

    /// Begins the search for the fault of a set's key, which is at the front of the bytes and in
    /// this frame.
    fn begin_key(&mut self, alloc: Global, frame: &Frame, bytes: &[u8])
        ensures column { self.new.column ≡ self.old.column }
    {
        let Some(error) = self.keys.get(frame.place()) else {
            return;
        };
        self.hunt = Hunt::of(alloc, error.as_ref());
        if let Ok((_, rest)) = Pull::new(bytes) {
            self.behind_key = frame.behind.saturating_add(rest.len());
        }
    }

    /// Shows the item at the front of the bytes, or its fault. `rest` are the bytes after its head.
    fn item(
        &mut self,
        alloc: Global,
        frame: Frame,
        head: &Head,
        bytes: &[u8],
        rest: &[u8],
    ) -> Result<bool, AllocError>
        ensures whole { OnOk result (whole self.new.column ≡ whole self.old.column) }
        ensures lines { OnOk result (shown self.new.column ≤ shown self.old.column + 1) }
    {
        if frame.is_key_set() {
            self.begin_key(alloc, &frame, bytes);
        }
        match self.fault_of(alloc, &frame, head, bytes, rest)? {
            None => self.show(alloc, frame, head, bytes, rest),
            Some(Fault::Simple) if self.goes_on => {
                self.note_fault(alloc, &frame, Fault::Simple)?;
                self.show(alloc, frame, head, bytes, rest)
            }
            Some(Fault::Shape) if self.goes_on && self.is_in_key(&frame) => {
                self.end_key(alloc, frame, head, bytes.len())
            }
            Some(fault) => self.stop(frame, fault),
        }
    }

    /// Puts the fault in the next item of the frame at the front of the note.
    fn note_fault(&mut self, alloc: Global, frame: &Frame, fault: Fault) -> Result<(), AllocError>
        ensures whole { OnOk result (whole self.new.column ≡ whole self.old.column) }
        ensures lines { OnOk result (shown self.new.column ≡ shown self.old.column) }
    {
        let left = self.column.ahead().len();
        let offset = self.bytes.len().saturating_sub(left);
        self.open.push(*frame)?;
        let path = path(alloc, self.bytes, &self.open, left)?;
        self.open.pop();
        if self.first.is_none() {
            self.first = Some((offset, fault));
        }
        let mut note = String::new(alloc);
        refusal::push(
            &mut note,
            self.hunt.error,
            Some((offset, fault)),
            path.as_str(),
        )?;
        if !self.column.note.is_empty() {
            note.push_str("; ")?;
            note.push_str(self.column.note.as_str())?;
        }
        self.column.note = note;
        self.column.is_refused = true;
        Ok(())
    }

    /// Returns true if the next item of the frame is a key of a set, or is in one.
    fn is_in_key(&self, frame: &Frame) -> bool {
        frame.is_key_set() || self.open.iter().any(|outer| outer.is_key_set())
    }

    /// Ends a key of a set at a fault in the next item of the frame. `head` is the head of that
    /// item, and `left` is the number of bytes of this frame from the item on.
    fn end_key(
        &mut self,
        alloc: Global,
        frame: Frame,
        head: &Head,
        left: usize,
    ) -> Result<bool, AllocError>
        ensures whole { OnOk result (whole self.new.column ≡ whole self.old.column) }
        ensures lines { OnOk result (shown self.new.column ≤ shown self.old.column + 1) }
    {
        if self.column.has_begun() {
            let depth = self.open.len();
            self.column.end_line(alloc, depth)?;
        }
        self.note_fault(alloc, &frame, Fault::Shape)?;
        if frame.is_key_set() {
            let mut passed = frame;
            passed.pass(head, left);
            self.open.push(passed)?;
        } else {
            self.open.truncate(KEYS);
        }
        self.skips_key = true;
        Ok(true)
    }

    /// Shows the rest of a key of a set.
    fn skip_key(&mut self, alloc: Global) -> Result<bool, AllocError>
        ensures whole { OnOk result (whole self.new.column ≡ whole self.old.column) }
        ensures lines { OnOk result (shown self.new.column ≤ shown self.old.column + 1) }
    {
        self.skips_key = false;
        let left = self.column.ahead().len();
        self.column.hold(left.saturating_sub(self.behind_key));
        self.column.end_line(alloc, KEYS.saturating_sub(1))?;
        Ok(true)
    }

    /// Shows the item at the front of the bytes. `rest` are the bytes after its head.
    fn show(
        &mut self,
        alloc: Global,
        frame: Frame,
        head: &Head,
        bytes: &[u8],
        rest: &[u8],
    ) -> Result<bool, AllocError>
        ensures whole { OnOk result (whole self.new.column ≡ whole self.old.column) }
        ensures lines { OnOk result (shown self.new.column ≤ shown self.old.column + 1) }
    {
        let part = frame.next_part();
        let now = self.now;
        self.column.cover = of_next(&frame);
        note::push(&mut self.column.note, &frame, &part, head, now)?;
        if part.role == Role::AuthenticatorData {
            authenticator::push(alloc, &mut self.column.note, content(head, rest))?;
        }
        let read = opened_part(part, head, rest);
        self.about.see(&frame, read.role, head, now)?;
        let unread = claims_refusal(alloc, &frame, &read, head, bytes)?;
        if let Some(error) = &unread {
            self.about.see_unread(alloc, &frame, read.role, error)?;
        }
        let is_sought = self.hunt.is_in(alloc, &part, content(head, rest))?;
        let opened = opening(alloc, &frame, part, head, bytes, is_sought)?;
        let opened = match opened {
            Some(opened) if unread.is_some() => Some(opened.unread()),
            other => other,
        };
        let mut passed = frame;
        passed.pass(head, bytes.len());
        passed.take_word(head, content(head, rest));
        match opened {
            Some(opened) => self.enter(alloc, passed, opened, head),
            None => self.leaf(alloc, passed, head, rest),
        }
    }

    /// Shows an item without parts.
    fn leaf(
        &mut self,
        alloc: Global,
        passed: Frame,
        head: &Head,
        rest: &[u8],
    ) -> Result<bool, AllocError>
        ensures whole { OnOk result (whole self.new.column ≡ whole self.old.column) }
        ensures lines { OnOk result (shown self.new.column ≤ shown self.old.column + 1) }
    {
        let content = content(head, rest);
        push_leaf(alloc, &mut self.column.text, head, content)?;
        self.column.hold(head.size());
        self.column.hold(content.len());
        if head.is_indefinite() {
            // The break of a string without chunks.
            self.column.hold(1);
        }
        let mark = passed.mark(within(&self.column, &passed));
        self.column.text.push_str(mark)?;
        let depth = self.open.len();
        let is_key = passed.is_at_value();
        self.open.push(passed)?;
        if !is_key {
            self.column.end_line(alloc, depth)?;
        }
        Ok(true)
    }

    /// Shows the head of an item with parts.
    fn enter(
        &mut self,
        alloc: Global,
        passed: Frame,
        opened: Frame,
        head: &Head,
    ) -> Result<bool, AllocError>
        ensures whole { OnOk result (whole self.new.column ≡ whole self.old.column) }
        ensures lines { OnOk result (shown self.new.column ≤ shown self.old.column + 1) }
    {
        push_opening(&mut self.column.text, &opened, head)?;
        self.column.hold(head.size());
        let depth = self.open.len();
        self.open.push(passed)?;
        self.open.push(opened)?;
        self.column.end_line(alloc, depth)?;
        Ok(true)
    }

    /// Walks over `count` bytes, as far as they can be shown. Each step shows at least one byte,
    /// closes a container that a byte opened, or notes the fault of a key of a set.
    ///
    /// # Errors
    /// `AllocError` if an allocation fails.
    pub(crate) fn run(&mut self, alloc: Global, count: usize) -> Result<(), AllocError>
        ensures whole { OnOk result (whole self.new.column ≡ whole self.old.column) }
        ensures lines { OnOk result (shown self.new.column
            ≤ shown self.old.column + (2 * count + 1)) }
    {
        for _ in 0..count.saturating_mul(2).saturating_add(1) {
            if !self.step(alloc)? {
                return Ok(());
            }
        }
        Ok(())
    }

    /// Ends the line that was begun, if there is one.
    ///
    /// # Errors
    /// `AllocError` if an allocation fails.
    pub(crate) fn end_line(&mut self, alloc: Global) -> Result<(), AllocError>
        ensures whole { OnOk result (whole self.new.column ≡ whole self.old.column) }
        ensures lines { OnOk result (shown self.new.column ≤ shown self.old.column + 1) }
    {
        if self.column.has_begun() {
            let depth = self.open.len().saturating_sub(1);
            self.column.end_line(alloc, depth)?;
        }
        Ok(())
    }
}
