ghost use Rattle.std.specs.Prelude.{map, ◌≡◌, ◌≤◌, ◌<◌, ℕ, slice_index_or, slice_set, ◌==◌};
ghost use Rattle.std.specs.List.{list_all};
ghost use Rattle.am_base.specs.Names.{place_of_name, has, names_are_within};
ghost use Rattle.am_base.specs.Lists.{blank, blank_row, after, fits, members_of_image, member_life_of_row, row_at_place, row_of_name, image_with_row, row_after_view, is_blank_image, is_blank_row};
ghost use Rattle.am_base.specs.Limits.{NumberIsInRange, StampIsInRange, RowIsInRange, ImageIsInRange, EntryIsInRange};
ghost use Rattle.am_base.specs.declared.entry.Entry.TheVariants.{View};

use am_base::entry::{EntryParts, EntryRef, GroupView};
use am_base::image::{Image, Row};
use am_base::name::{Name, Stamp};
use am_base::names::Names;
use std::marker::Model;

/// Nobody joined here.
const BLANK_ROW: Row = Row {
    life: 0,
    joined: 0,
    left: 0,
    last: 0,
};

/// What a list tells: its last view, and a row for each place. Contracts see it as an image.
#[derive(Drop)]
pub struct Table {
    image: Image,
    members: Names,
}

impl Model for Table {
    ghost use Rattle.am_base.specs.declared.image.Image.{Image};
    ghost use Rattle.am_node_storage.specs.Tables.{IsTable};

    ghost Value = { Image };

    ghost view = { λ t. t.image };

    ghost invariant = { λ t. IsTable t.image t.members };
}

fn is_blank_row(row: &Row) -> bool
    ensures { result ≡ is_blank_row row.now }
{
    row.life == 0 && row.joined == 0 && row.left == 0 && row.last == 0
}

/// Whether no place has ever joined.
fn are_blank(rows: &[Row]) -> bool
    ensures { result ≡ list_all is_blank_row rows.now }
{
    rows.iter().all(|row| is_blank_row(row))
}

/// The life of a row's member, 0 where it has none.
fn member_life(row: &Row) -> u8
    ensures value { result ≡ member_life_of_row row.now }
    ensures most { result ≤ row.now.life }
{
    if 0 < row.joined && row.left == 0 {
        row.life
    } else {
        0
    }
}

/// The members that rows tell.
#[tactic(auto, using(crate::proofs::Rows::member_life_le_row_life))]
fn members_of(rows: &[Row; 16]) -> Names
    requires { (place : ℕ) → place < 16 → RowIsInRange (slice_index_or rows.now place blank_row) }
    ensures { result ≡ map member_life_of_row rows.now }
{
    let mut lives = [0; 16];
    for place in 0..16usize {
        lives[place] = member_life(&rows[place]);
    }
    Names::of_lives(lives)
}

/// A place's row after a View: who is new in the first one joins there, and a member that it leaves out has left.
#[tactic(auto, using(crate::proofs::Rows::row_after_view_is_row))]
fn row_after_view(first: bool, number: u32, life: u8, row: &Row) -> Row
    requires number { NumberIsInRange number }
    requires life { life ≤ 16 }
    requires row { RowIsInRange row.now }
    ensures value { result ≡ row_after_view first number life row.now }
    ensures within { RowIsInRange result }
{
    if first {
        if life == 0 {
            return *row;
        }
        return Row {
            life,
            joined: 1,
            left: 0,
            last: 0,
        };
    }
    let member = member_life(row);
    if 0 < member && member != life {
        return Row {
            life: row.life,
            joined: row.joined,
            left: number,
            last: row.last,
        };
    }
    *row
}

impl Table {
    /// What the empty list tells.
    pub fn blank() -> Table
        ensures value { result ≡ blank }
        ensures within { ImageIsInRange result }
    {
        Table {
            image: Image {
                view: Stamp {
                    round: 0,
                    by: Name::of_byte(0),
                },
                view_number: 0,
                resilience: 0,
                rows: [BLANK_ROW; 16],
            },
            members: Names::empty(),
        }
    }

    /// The table of an image.
    pub fn of_image(image: &Image) -> Table
        requires { ImageIsInRange image.now }
        ensures { result ≡ image.now }
    {
        Table {
            image: *image,
            members: members_of(&image.rows),
        }
    }

    /// What the list tells as an image.
    pub fn image(&self) -> &Image
        ensures value { result.now ≡ self.now }
        ensures within { ImageIsInRange result.now }
    {
        &self.image
    }

    /// The row of a name's place.
    pub fn at_place(&self, name: Name) -> Row
        ensures value { result ≡ row_at_place self.now name }
        ensures within { RowIsInRange result }
    {
        self.image.rows[usize::from(name.place())]
    }

    /// The row of a name's place where its life is the name's, and else all zeros.
    pub fn row(&self, name: Name) -> Row
        ensures value { result ≡ row_of_name self.now name }
        ensures within { RowIsInRange result }
    {
        let row = self.at_place(name);
        if row.life == name.life() {
            return row;
        }
        BLANK_ROW
    }

    /// The stamp of the last View, round 0 and name 0 where there is none.
    pub fn view(&self) -> Stamp
        ensures value { result ≡ self.now.view }
        ensures within { StampIsInRange result }
    {
        self.image.view
    }

    /// The number of the last View, 0 where there is none.
    pub fn view_number(&self) -> u32
        ensures value { result ≡ self.now.view_number }
        ensures within { NumberIsInRange result }
    {
        self.image.view_number
    }

    /// The resilience of the last View, 0 where there is none.
    pub fn resilience(&self) -> u8
        ensures value { result ≡ self.now.resilience }
        ensures within { result ≤ 15 }
    {
        self.image.resilience
    }

    /// The members.
    pub fn members(&self) -> Names
        ensures { result ≡ members_of_image self.now }
    {
        self.members
    }

    /// Whether no View has come yet.
    fn is_blank(&self) -> bool
        ensures { result ≡ is_blank_image self.now }
    {
        if self.image.view.round != 0 || self.image.view.by.get() != 0 {
            return false;
        }
        if self.image.view_number != 0 || self.image.resilience != 0 {
            return false;
        }
        are_blank(&self.image.rows)
    }

    /// Whether a name is a member.
    fn has_member(&self, name: Name) -> bool
        ensures { result ≡ has (members_of_image self.now) name }
    {
        self.members.has(name)
    }

    /// Whether each name of a set is a member.
    fn are_members(&self, names: Names) -> bool
        ensures { result ≡ names_are_within names (members_of_image self.now) }
    {
        for place in 0..16u8 {
            let life = names.life_at(place);
            if life != 0 && life != self.members.life_at(place) {
                return false;
            }
        }
        true
    }

    /// Whether an entry fits: a member's next send; a Join whose place is free, or has a smaller life that has left; a
    /// member's Leave; a greater view of some of the members with its own name among them and no less resilience. On a
    /// blank table a View's members needn't be members.
    #[tactic(auto, unfolding(am_base::specs::Lists::fits))]
    pub fn fits(&self, entry: &EntryRef) -> bool
        ensures { result ≡ fits self.now entry.now }
    {
        match entry.parts() {
            EntryParts::Data { from, req, .. } => {
                self.has_member(*from) && u64::from(*req) == u64::from(self.row(*from).last) + 1
            }
            EntryParts::Join(name) => {
                let row = self.at_place(*name);
                row.joined == 0 || (0 < row.left && row.life < name.life())
            }
            EntryParts::Leave(name) => self.has_member(*name),
            EntryParts::View(view) => self.fits_view(view),
        }
    }

    /// Whether a View fits: a greater one, of members alone.
    #[tactic(auto, unfolding(am_base::specs::Lists::fits))]
    fn fits_view(&self, view: &GroupView) -> bool
        ensures { result ≡ fits self.now (View view.now) }
    {
        if !self.view().is_below(view.stamp) {
            return false;
        }
        if !self.is_blank() && !self.are_members(view.members) {
            return false;
        }
        view.members.has(view.stamp.by) && self.resilience() <= view.resilience
    }

    /// Writes a place's row, and the members that follow from it.
    #[tactic(auto, using(crate::proofs::Rows::with_row_is_image))]
    fn set_row(&mut self, name: Name, row: Row, members: Names)
        requires row { RowIsInRange row }
        requires members { members ≡ slice_set (members_of_image self.old) (place_of_name name)
            (member_life_of_row row) }
        ensures value { self.new ≡ image_with_row self.old name row }
        ensures within { ImageIsInRange self.new }
    {
        self.image.rows[usize::from(name.place())] = row;
        self.members = members;
    }

    /// Adds an entry, which has this number.
    #[tactic(auto, using(crate::proofs::Rows::members_of_rows_rules), unfolding(am_base::specs::Lists::after))]
    pub fn apply(&mut self, number: u32, entry: &EntryRef)
        requires number { (1 ≤ number) × NumberIsInRange number }
        requires entry { EntryIsInRange entry.now }
        ensures value { self.new ≡ after self.old number entry.now }
        ensures within { ImageIsInRange self.new }
    {
        let _rows = &self.image.rows;
        match entry.parts() {
            EntryParts::Data { from, req, .. } => {
                let row = self.at_place(*from);
                if row.life == from.life() {
                    let members = self.members();
                    self.set_row(*from, Row { last: *req, ..row }, members);
                }
            }
            EntryParts::Join(name) => {
                let row = Row {
                    life: name.life(),
                    joined: number,
                    ..BLANK_ROW
                };
                let members = self.members().with(*name);
                self.set_row(*name, row, members);
            }
            EntryParts::Leave(name) => {
                let row = self.at_place(*name);
                if row.life == name.life() {
                    let members = self.members().without(*name);
                    self.set_row(
                        *name,
                        Row {
                            left: number,
                            ..row
                        },
                        members,
                    );
                }
            }
            EntryParts::View(view) => self.begin_view(number, view),
        }
    }

    /// Begins a View at this number.
    #[tactic(auto, unfolding(am_base::specs::Lists::after))]
    fn begin_view(&mut self, number: u32, view: &GroupView)
        requires number { NumberIsInRange number }
        requires view { EntryIsInRange (View view.now) }
        ensures value { self.new ≡ after self.old number (View view.now) }
        ensures within { ImageIsInRange self.new }
    {
        let first = self.is_blank();
        let mut rows = self.image.rows;
        for place in 0..16u8 {
            rows[usize::from(place)] = row_after_view(
                first,
                number,
                view.members.life_at(place),
                &self.image.rows[usize::from(place)],
            );
        }
        self.members = members_of(&rows);
        self.image = Image {
            view: view.stamp,
            view_number: number,
            resilience: view.resilience,
            rows,
        };
    }
}
