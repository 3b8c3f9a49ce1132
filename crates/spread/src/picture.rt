//! The table as a picture, in SVG: a row for each hasher, and a shaded cell for each number.
use crate::table::{Frame, counted, digits};
use spread_core::chance::{Chance, nearest};
use spread_core::counts::Spread;
use spread_core::rows::TableRow;
use std::alloc::{AllocError, Global};

/// From green, for a number near chance or below, to red.
const SHADES: [&str; 6] = [
    "#2e7d32", "#9ccc65", "#fff176", "#ffb74d", "#e57373", "#b71c1c",
];

/// How many times what chance gives a number may be, for each shade but the last.
const LIMITS: [f64; 5] = [1.25, 2.0, 5.0, 40.0, 320.0];

/// The least width of a column, and what a digit takes.
const NARROW: u64 = 62;

const DIGIT: u64 = 8;

/// How high a row is, where the first begins, and where the first column begins.
const HIGH: u64 = 22;

const TOP: u64 = 56;

const LEFT: u64 = 92;

/// What stands between two groups of columns.
const GAP: u64 = 20;

/// What stands below the rows.
const CAPTION: &str =
    "Green where a number is near chance or below it, red where it is many times as great.";

/// A picture that is drawn.
#[derive(Drop)]
struct Drawing {
    alloc: Global,
    svg: String,
    wide: u64,
}

/// The place of a shade for a number beside what chance gives.
fn shade(number: f64, chance: f64) -> usize {
    LIMITS
        .iter()
        .filter(|limit| number > **limit * chance)
        .count()
}

impl Drawing {
    /// Puts a text at a place, with what its tag has besides.
    fn text(&mut self, x: u64, y: u64, more: &str, told: &str) -> Result<(), AllocError> {
        let text = format!(in self.alloc; "<text x=\"{x}\" y=\"{y}\"{more}>{told}</text>\n")?;
        self.svg.push_str(text.as_str())
    }

    /// Puts a shaded cell, with its number in it.
    fn cell(&mut self, x: u64, y: u64, shade: usize, told: &str) -> Result<(), AllocError> {
        let colour = SHADES[shade.min(5)];
        let ink = if shade == 0 || shade >= 5 {
            " text-anchor=\"middle\" fill=\"white\""
        } else {
            " text-anchor=\"middle\" fill=\"black\""
        };
        let width = self.wide.saturating_sub(2);
        let height = HIGH - 2;
        let rect = format!(in self.alloc;
            "<rect x=\"{x}\" y=\"{y}\" width=\"{width}\" height=\"{height}\" fill=\"{colour}\"/>\n"
        )?;
        self.svg.push_str(rect.as_str())?;
        self.text(
            x.saturating_add(self.wide / 2),
            y.saturating_add(15),
            ink,
            told,
        )
    }

    /// Puts the cells of so many buckets, beside chance.
    fn spread(
        &mut self,
        x: u64,
        y: u64,
        spread: &Spread,
        chance: &Chance,
    ) -> Result<(), AllocError> {
        let alloc = self.alloc;
        let wide = self.wide;
        let (fullest, empty, squares) = (spread.fullest, spread.empty, spread.squares);
        let told = format!(in alloc; "{fullest}")?;
        let near = shade(nearest(fullest.into()), nearest(chance.fullest.into()));
        self.cell(x, y, near, told.as_str())?;
        let told = format!(in alloc; "{empty}")?;
        let near = shade(nearest(empty.into()), chance.empty);
        self.cell(x.saturating_add(wide), y, near, told.as_str())?;
        let told = format!(in alloc; "{squares}")?;
        let near = shade(nearest(squares), chance.squares);
        self.cell(
            x.saturating_add(wide.saturating_mul(2)),
            y,
            near,
            told.as_str(),
        )
    }

    /// Puts what stands above a group of columns.
    fn head(&mut self, x: u64, keys: u64, buckets: u64) -> Result<(), AllocError> {
        let keys = counted(self.alloc, keys, "key")?;
        let buckets = counted(self.alloc, buckets, "bucket")?;
        let told = format!(in self.alloc; "{keys} in {buckets}")?;
        self.text(x, 16, " font-weight=\"bold\"", told.as_str())?;
        let mut middle = x.saturating_add(self.wide / 2);
        for name in ["fullest", "empty", "squares"] {
            self.text(middle, TOP - 8, " text-anchor=\"middle\"", name)?;
            middle = middle.saturating_add(self.wide);
        }
        Ok(())
    }
}

/// The y of a row.
fn y_of(row: usize) -> u64 {
    (row as u64).saturating_mul(HIGH).saturating_add(TOP)
}

/// The x of a group of columns of that width.
fn x_of(group: u64, wide: u64) -> u64 {
    let step = wide.saturating_mul(3).saturating_add(GAP);
    group.saturating_mul(step).saturating_add(LEFT)
}

/// How wide a column is, by the greatest number that may stand in it.
fn width_of(frame: &Frame) -> u64 {
    let keys = u128::from(frame.keys);
    let greatest = keys.saturating_mul(keys).max(frame.sizes.first.into());
    let letters = u64::from(digits(greatest)).saturating_add(2);
    letters.saturating_mul(DIGIT).max(NARROW)
}

/// Draws the cells of each row, in the group of columns of one number of buckets.
fn draw_group(
    drawing: &mut Drawing,
    frame: &Frame,
    group: u64,
    spreads: &[Spread],
) -> Result<(), AllocError> {
    let x = x_of(group, drawing.wide);
    if let [first, ..] = spreads {
        let chance = Chance::of(frame.keys, first.buckets);
        drawing.head(x, frame.keys, first.buckets)?;
        for (row, spread) in spreads.iter().enumerate() {
            drawing.spread(x, y_of(row), spread, &chance)?;
        }
    }
    Ok(())
}

/// The picture of the rows.
pub fn picture(alloc: Global, frame: &Frame, rows: &[TableRow]) -> Result<String, AllocError> {
    let wide = width_of(frame);
    let groups = if frame.sizes.second.is_some() { 2 } else { 1 };
    let (width, height) = (x_of(groups, wide), y_of(rows.len()).saturating_add(30));
    let mut drawing = Drawing {
        alloc,
        svg: format!(in alloc;
            "<svg xmlns=\"http://www.w3.org/2000/svg\" viewBox=\"0 0 {width} {height}\" \
            font-family=\"sans-serif\" font-size=\"12\">\n<rect width=\"{width}\" height=\"{height}\" fill=\"white\"/>\n"
        )?,
        wide,
    };
    let mut first = Vec::new(alloc);
    let mut second = Vec::new(alloc);
    for (place, row) in rows.iter().enumerate() {
        first.push(row.counts.first)?;
        if let Some(spread) = row.counts.second {
            second.push(spread)?;
        }
        let y = y_of(place).saturating_add(15);
        drawing.text(LEFT - 8, y, " text-anchor=\"end\"", row.kind.row().name)?;
    }
    draw_group(&mut drawing, frame, 0, &first)?;
    draw_group(&mut drawing, frame, 1, &second)?;
    drawing.text(LEFT, height.saturating_sub(10), "", CAPTION)?;
    drawing.svg.push_str("</svg>\n")?;
    Ok(drawing.svg)
}
