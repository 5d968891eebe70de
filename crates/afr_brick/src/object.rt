//! One copy of an object, as a brick keeps it, and each change of it.
ghost use Rattle.std.specs.Prelude.{◌≡◌, ℕ, ◌+◌, ◌-◌, ◌^◌, ◌<◌, ◌≤◌, OnOk, OnErr, length, slice_index, take};
ghost use Rattle.std.specs.BTreeMap.{insert_entry, is_at};
ghost use Rattle.std.specs.List.Sorted.{IsStrictlySortedBy};
ghost use Rattle.std.specs.Map.{keys_of, remove_entry};
ghost use Rattle.afr_base.specs.Marks.{closed_op, dirtied, is_no_marks, marks_of, taken_back};
ghost use Rattle.afr_object.specs.Bytes.{copied_in, written};
ghost use Rattle.afr_object.specs.Repairs.{with_attrs};
ghost use Rattle.afr_object.specs.Tables.{key_cmp, name_cmp, new_object, view_of, with_attr, with_bytes, with_names, with_numbers};

use crate::same::are_same_attrs;
use afr_base::{AllMarks, BrickSet, KeyId, Kind, Marks, NameId, NoMemory, ValueId, What};
use afr_content::Content;
use afr_object::{AttrList, Entry, SortedMap, View};
use std::alloc::Global;
use std::marker::Model;

/// A file or directory on a brick: its bytes, its attributes, its names and its changelog numbers.
#[derive(Drop)]
pub struct Object {
    what: What,
    content: Content,
    attrs: SortedMap<KeyId, ValueId>,
    names: SortedMap<NameId, Entry>,
    marks: AllMarks,
}

impl Model for Object {
    ghost use Rattle.afr_object.specs.Object.{Object as Copy};

    ghost Value = { Copy };

    ghost view = { λ o. record { what = o.what; content = o.content.bytes; attrs = o.attrs; names = o.names; marks = o.marks } };
}

impl Object {
    /// An empty object, with no number above zero.
    pub(crate) fn new(alloc: Global, what: What) -> Object
        ensures { result ≡ new_object what }
    {
        Object {
            what,
            content: Content::new(alloc),
            attrs: SortedMap::new(alloc),
            names: SortedMap::new(alloc),
            marks: AllMarks::zero(),
        }
    }

    /// What a look shows.
    pub(crate) fn view(&self) -> View
        ensures { result ≡ view_of self.now }
    {
        View {
            what: self.what,
            len: self.content.len(),
            marks: self.marks,
        }
    }

    /// The same, written in its place.
    pub(crate) fn show(&self, view: &mut View)
        ensures { view.new ≡ view_of self.now }
    {
        view.what = self.what;
        view.len = self.content.len();
        view.marks = self.marks;
    }

    pub(crate) fn what(&self) -> What
        ensures { result ≡ self.now.what }
    {
        self.what
    }

    /// Whether no changelog number is above zero.
    pub(crate) fn is_clean(&self) -> bool
        ensures { result ≡ is_no_marks self.now.marks }
    {
        self.marks.is_zero()
    }

    pub(crate) fn content(&self) -> &Content
        ensures { result.now.bytes ≡ self.now.content }
    {
        &self.content
    }

    pub(crate) fn attrs(&self) -> &SortedMap<KeyId, ValueId>
        ensures { result.now ≡ self.now.attrs }
    {
        &self.attrs
    }

    pub(crate) fn names(&self) -> &SortedMap<NameId, Entry>
        ensures { result.now ≡ self.now.names }
    {
        &self.names
    }

    /// Writes bytes. A directory stays as it is, and so does a copy on the arbiter, which keeps none.
    pub(crate) fn write(
        &mut self,
        keeps: bool,
        at: u32,
        bytes: &[u8],
    ) -> Result<(), afr_content::NoMemory>
        requires { at + length bytes.now ≤ 1048576 }
        ensures ok { OnOk result (self.new ≡ with_bytes keeps (written at bytes.now) self.old) }
        ensures err { OnErr result (self.new ≡ self.old) }
    {
        if keeps && self.what == What::File {
            self.content.write_at(at, bytes)?;
        }
        Ok(())
    }

    /// Drops the bytes from a length on, as `write` writes them.
    pub(crate) fn cut(&mut self, keeps: bool, len: u32)
        ensures { self.new ≡ with_bytes keeps (take len) self.old }
    {
        if keeps && self.what == What::File {
            self.content.cut(len);
        }
    }

    /// Makes a span what it is in another copy, as `write` writes it.
    pub(crate) fn copy_in(
        &mut self,
        keeps: bool,
        at: u32,
        span: u32,
        bytes: &[u8],
    ) -> Result<(), afr_content::NoMemory>
        requires end { at + span ≤ 1048576 }
        requires len { length bytes.now ≤ span }
        ensures ok { OnOk result (self.new ≡ with_bytes keeps (copied_in at span bytes.now) self.old) }
        ensures err { OnErr result (self.new ≡ self.old) }
    {
        if keeps && self.what == What::File {
            self.content.copy_in(at, span, bytes)?;
        }
        Ok(())
    }

    pub(crate) fn set_attr(&mut self, key: KeyId, value: ValueId) -> Result<(), NoMemory>
        ensures ok { OnOk result (self.new ≡ with_attr key value self.old) }
        ensures err { OnErr result (self.new ≡ self.old) }
    {
        self.attrs.insert(key, value)
    }

    /// Replaces the attributes, where the object has others.
    pub(crate) fn renew_attrs(&mut self, alloc: Global, attrs: &AttrList) -> Result<(), NoMemory>
        requires { IsStrictlySortedBy key_cmp (keys_of attrs.now) }
        ensures ok { OnOk result (self.new ≡ with_attrs attrs.now self.old) }
        ensures err { OnErr result (self.new ≡ self.old) }
    {
        let kept = self.attrs.list(alloc)?;
        if are_same_attrs(&kept, attrs) {
            return Ok(());
        }
        self.attrs = SortedMap::from_list(alloc, attrs)?;
        Ok(())
    }

    /// Gives a directory a name. A file stays as it is, here and below.
    pub(crate) fn put_name(&mut self, name: NameId, entry: Entry) -> Result<(), NoMemory>
        ensures ok { OnOk result (self.new ≡ with_names (λ names. insert_entry name_cmp names name entry) self.old) }
        ensures err { OnErr result (self.new ≡ self.old) }
    {
        match self.what {
            What::File => Ok(()),
            What::Dir => self.names.insert(name, entry),
        }
    }

    pub(crate) fn drop_name(&mut self, name: NameId)
        ensures { self.new ≡ with_names (remove_entry (is_at (name_cmp name))) self.old }
    {
        match self.what {
            What::File => {}
            What::Dir => self.names.remove(name),
        }
    }

    pub(crate) fn put_names(&mut self, names: SortedMap<NameId, Entry>)
        ensures { self.new ≡ with_names (λ old. names) self.old }
    {
        match self.what {
            What::File => {}
            What::Dir => self.names = names,
        }
    }

    /// One more operation is open on the copy.
    pub(crate) fn pre(&mut self, kind: Kind)
        requires { (marks_of kind self.old.marks).dirty < 2 ^ 32 - 1 }
        ensures { self.new ≡ with_numbers kind dirtied self.old }
    {
        let mut marks = self.marks.of(kind);
        marks.raise_dirty();
        self.marks.put(kind, marks);
    }

    /// One operation fewer is open, and each brick that missed it is accused.
    pub(crate) fn post(&mut self, kind: Kind, missed: BrickSet)
        requires open { 0 < (marks_of kind self.old.marks).dirty }
        requires room { (b : ℕ) → b < 5 → slice_index (marks_of kind self.old.marks).pending b < 2 ^ 32 - 1 }
        ensures { self.new ≡ with_numbers kind (closed_op missed) self.old }
    {
        let mut marks = self.marks.of(kind);
        marks.after_op(missed);
        self.marks.put(kind, marks);
    }

    /// Takes back the numbers that a heal has settled.
    pub(crate) fn settle(&mut self, kind: Kind, less: &Marks)
        requires dirty { less.now.dirty ≤ (marks_of kind self.old.marks).dirty }
        requires pending { (b : ℕ) → b < 5 → slice_index less.now.pending b ≤ slice_index (marks_of kind self.old.marks).pending b }
        ensures { self.new ≡ with_numbers kind (taken_back less.now) self.old }
    {
        let mut marks = self.marks.of(kind);
        marks.settle(less);
        self.marks.put(kind, marks);
    }
}
