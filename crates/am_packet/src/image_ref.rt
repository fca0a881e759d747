ghost use Rattle.std.specs.Prelude.{◌≡◌, ◌+◌, ◌≤◌, length};
ghost use Rattle.am_packet.specs.Images.{number_in_bytes, row_in, rows_in, image_in, rows_length, image_length};

use am_base::image::{Image, Row};
use am_base::name::{Name, Stamp};
use byteorder::{BigEndian, ByteOrder};
use std::fmt;
use std::marker::Model;

/// Where an image stands.
#[derive(Drop)]
enum ImagePlace<'a> {
    /// In a place of its own.
    Apart(&'a Image),
    /// Among bytes, from an offset on.
    Among(&'a [u8], usize),
}

/// An image where it stands: among a packet's bytes, or in what a node keeps. Contracts see it as the image.
#[derive(Drop)]
pub struct ImageRef<'a> {
    place: ImagePlace<'a>,
}

impl<'a> Model for ImageRef<'a> {
    ghost use Rattle.am_base.specs.declared.image.Image.{Image};
    ghost use Rattle.am_packet.specs.Images.{image_of_place, IsPlace};

    ghost Value = { Image };

    ghost view = { λ i. image_of_place i.place };

    ghost invariant = { λ i. IsPlace i.place };
}

impl<'a> ImageRef<'a> {
    /// This image.
    pub fn of(image: &'a Image) -> ImageRef<'a>
        ensures { result ≡ image.now }
    {
        ImageRef {
            place: ImagePlace::Apart(image),
        }
    }

    /// The image that stands among bytes from an offset on.
    pub fn among(bytes: &'a [u8], at: usize) -> ImageRef<'a>
        requires { at + image_length ≤ length bytes.now }
        ensures { result ≡ image_in bytes.now at }
    {
        ImageRef {
            place: ImagePlace::Among(bytes, at),
        }
    }

    /// The same image in a place of its own. It takes no memory.
    pub fn to_image(&self) -> Image
        ensures { result ≡ self.now }
    {
        match &self.place {
            ImagePlace::Apart(image) => **image,
            ImagePlace::Among(bytes, at) => image_among(bytes, *at),
        }
    }
}

impl<'a> fmt::Debug for ImageRef<'a> {
    fn fmt<W: fmt::Write>(&self, f: &mut fmt::Formatter<W>) -> fmt::Result {
        self.to_image().fmt(f)
    }
}

/// The number in the four bytes at an offset.
fn number(bytes: &[u8], at: usize) -> u32
    requires { at + 4 ≤ length bytes.now }
    ensures { result ≡ number_in_bytes bytes.now at }
{
    BigEndian::read_u32(&bytes[at..])
}

/// The row of a place at an offset.
fn row(bytes: &[u8], at: usize) -> Row
    requires { at + 13 ≤ length bytes.now }
    ensures { result ≡ row_in bytes.now at }
{
    Row {
        life: bytes[at],
        joined: number(bytes, at + 1),
        left: number(bytes, at + 5),
        last: number(bytes, at + 9),
    }
}

/// The rows of the sixteen places from an offset on.
fn rows(bytes: &[u8], at: usize) -> [Row; 16]
    requires { at + rows_length ≤ length bytes.now }
    ensures { result ≡ rows_in 16 bytes.now at }
{
    let mut rows = [Row::default(); 16];
    for place in 0..16usize {
        rows[place] = row(bytes, at + 13 * place);
    }
    rows
}

/// The image at an offset.
fn image_among(bytes: &[u8], at: usize) -> Image
    requires { at + image_length ≤ length bytes.now }
    ensures { result ≡ image_in bytes.now at }
{
    Image {
        view: Stamp {
            round: number(bytes, at),
            by: Name::of_byte(bytes[at + 4]),
        },
        view_number: number(bytes, at + 5),
        resilience: bytes[at + 9],
        rows: rows(bytes, at + 10),
    }
}
