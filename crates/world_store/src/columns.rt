//! Values by property and object: of each property a column with a value for each object, all in one list.
ghost use Rattle.std.specs.Prelude.{◌≡◌, [], IfOk, slice_index_or, slice_set};
ghost use Rattle.world_store.specs.Rows.{place_in, read_at, rows, write_at};

use std::alloc::{AllocError, Global};
use std::marker::Model;
use world_meaning::ObjNo;

/// Where the value of an object stands in the column of a property, if it does.
fn place_in(height: u16, count: usize, property: u8, object: ObjNo) -> Option<usize>
    ensures { result ≡ place_in height count property object }
{
    if usize::from(property) < count && object.get() < height {
        Some(usize::from(property) * usize::from(height) + usize::from(object.get()))
    } else {
        None
    }
}

fn read_at<T: Copy>(values: &[T], place: Option<usize>, otherwise: T) -> T
    ensures { result ≡ read_at values.now place otherwise }
{
    match place {
        Some(place) => match values.get(place) {
            Some(value) => *value,
            None => otherwise,
        },
        None => otherwise,
    }
}

/// Sets the value at a place, where there is one.
pub(crate) fn write_at<T: Copy>(values: &mut Vec<T>, place: Option<usize>, value: T)
    ensures { values.new.items ≡ write_at values.old.items place value }
{
    if let Some(place) = place {
        if let Some(old) = values.get_mut(place) {
            *old = value;
        }
    }
}

/// The columns, by the properties' numbers: so many, of one height, one behind the other.
#[derive(Drop)]
pub(crate) struct Columns<T> {
    values: Vec<T>,
    height: u16,
    count: usize,
}

impl<T> Model for Columns<T> {
    ghost use Rattle.std.specs.Prelude.{List};
    ghost use Rattle.world_store.specs.Rows.{rows};

    ghost Value = { List (List T) };

    ghost view = { λ table. rows table.height table.count table.values.items };
}

impl<T: Copy> Columns<T> {
    /// The columns of these values.
    pub(crate) fn new(values: Vec<T>, height: u16, count: usize) -> Columns<T>
        ensures { result ≡ rows height count values.items }
    {
        Columns {
            values,
            height,
            count,
        }
    }

    /// Columns that are equal to these.
    pub(crate) fn copy(&self, alloc: Global) -> Result<Columns<T>, AllocError>
        ensures { IfOk result (λ columns. columns ≡ self.now) }
    {
        Ok(Columns {
            values: Vec::from_slice(alloc, self.values.as_slice())?,
            height: self.height,
            count: self.count,
        })
    }

    /// The value of an object; another where it isn't there.
    pub(crate) fn at(&self, property: u8, object: ObjNo, otherwise: T) -> T
        ensures { result ≡ slice_index_or (slice_index_or self.now property []) object otherwise }
    {
        let place = place_in(self.height, self.count, property, object);
        read_at(self.values.as_slice(), place, otherwise)
    }

    /// Sets the value of an object, where it is there.
    pub(crate) fn set(&mut self, property: u8, object: ObjNo, value: T)
        ensures { self.new ≡ slice_set self.old property (slice_set (slice_index_or self.old property []) object value) }
    {
        let place = place_in(self.height, self.count, property, object);
        write_at(&mut self.values, place, value);
    }
}
