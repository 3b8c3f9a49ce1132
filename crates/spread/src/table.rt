//! The table, in lines of text.
ghost use Rattle.std.specs.Prelude.{◌≡◌, ◌++◌, ◌∷◌, [], IfOk, OnOk, decimal, map, string_bytes};
ghost use Rattle.spread.specs.Lines.{AddsCell, AddsCells, IsHead, IsLine, IsRow, bucket_heads, counted, groups, heads, in_buckets, names, number_heads};

use cli::help::push_spaces;
use spread_core::chance::{Chance, equal_pairs};
use spread_core::rows::TableRow;
use spread_core::sizes::Sizes;
use std::alloc::{AllocError, Global};

/// The digits of each number.
fn cells_of(alloc: Global, numbers: &[u128]) -> Result<Vec<String>, AllocError>
    ensures { IfOk result (λ cells. map string_bytes cells.items ≡ map decimal numbers.now) }
{
    let mut cells = Vec::new(alloc);
    for number in numbers {
        cells.push(format!(in alloc; "{number}")?)?;
    }
    Ok(cells)
}

/// What the table is of.
#[derive(Clone, Copy)]
pub struct Frame {
    /// How many keys there are.
    pub keys: u64,
    /// Into how many buckets they fall.
    pub sizes: Sizes,
    /// Whether times are shown.
    pub times: bool,
}

/// A column of numbers: what stands at its head, and how wide it is.
#[derive(Clone, Copy)]
struct Column {
    name: &'static str,
    width: usize,
}

/// How many columns there are up to the last of the first number of buckets.
const FIRST: usize = 5;

/// How wide the column of names is, and that of times.
const NAMES: usize = 11;

const TIMES: usize = 8;

/// A line: a text at the left, and others each at the right of its column, or as far left as it has to begin.
#[derive(Drop)]
struct Line {
    text: String,
    end: usize,
}

impl Line {
    /// The line that begins with this text.
    fn new(alloc: Global, text: &str) -> Result<Line, AllocError>
        ensures { IfOk result (λ line. string_bytes line.text ≡ text.now) }
    {
        let text = String::from_str(alloc, text)?;
        Ok(Line { text, end: NAMES })
    }

    /// Puts a text at the right of the next columns, which are so wide.
    fn push(&mut self, text: &str, width: usize) -> Result<(), AllocError>
        ensures { OnOk result (AddsCell (string_bytes self.old.text) text.now (string_bytes self.new.text)) }
    {
        self.end = self.end.saturating_add(width);
        let spaces = self
            .end
            .saturating_sub(self.text.len())
            .saturating_sub(text.len())
            .max(1);
        push_spaces(&mut self.text, spaces)?;
        self.text.push_str(text)
    }

    /// Puts a cell into each column.
    fn push_cells(&mut self, cells: &[String], columns: &[Column]) -> Result<(), AllocError>
        ensures { OnOk result (AddsCells (string_bytes self.old.text) (map string_bytes cells.now)
            (string_bytes self.new.text)) }
    {
        for (place, cell) in cells.iter().enumerate() {
            let width = match columns.get(place) {
                Some(column) => column.width,
                None => 0,
            };
            self.push(cell.as_str(), width)?;
        }
        Ok(())
    }

    /// Puts its name into each column.
    fn push_names(&mut self, columns: &[Column]) -> Result<(), AllocError>
        ensures { OnOk result (AddsCells (string_bytes self.old.text) (names columns.now)
            (string_bytes self.new.text)) }
    {
        for column in columns {
            self.push(column.name, column.width)?;
        }
        Ok(())
    }

    /// The line, with its end.
    fn ended(mut self) -> Result<String, AllocError>
        ensures { IfOk result (λ line. string_bytes line ≡ string_bytes self.text ++ 10 ∷ []) }
    {
        self.text.push('\n')?;
        Ok(self.text)
    }
}

/// How many digits a number has.
pub fn digits(number: u128) -> u32 {
    match number.checked_ilog10() {
        Some(power) => power.saturating_add(1),
        None => 1,
    }
}

/// The column of that name for numbers up to this one; it begins with two spaces at least.
fn column_for(name: &'static str, greatest: u128) -> Column
    ensures { result.name.now ≡ name.now }
{
    let width = (digits(greatest) as usize).max(name.len());
    Column {
        name,
        width: width.saturating_add(2),
    }
}

/// So many things of this name, with an s where it isn't one.
pub fn counted(alloc: Global, count: u64, thing: &str) -> Result<String, AllocError>
    ensures { IfOk result (λ text. string_bytes text ≡ counted count thing.now) }
{
    let s = if count == 1 { "" } else { "s" };
    format!(in alloc; "{count} {thing}{s}")
}

/// What stands above the columns of so many buckets.
fn in_buckets(alloc: Global, buckets: u64) -> Result<String, AllocError>
    ensures { IfOk result (λ text. string_bytes text ≡ in_buckets buckets) }
{
    let buckets = counted(alloc, buckets, "bucket")?;
    format!(in alloc; "in {buckets}")
}

/// How wide columns are together.
fn width_of(columns: &[Column]) -> usize {
    let mut width: usize = 0;
    for column in columns {
        width = width.saturating_add(column.width);
    }
    width
}

impl Frame {
    /// Puts the columns of so many buckets after the others.
    fn push_buckets(&self, columns: &mut Vec<Column>) -> Result<(), AllocError>
        ensures { OnOk result (names columns.new.items ≡ names columns.old.items ++ bucket_heads) }
    {
        let keys = u128::from(self.keys);
        let buckets = u128::from(self.sizes.first.max(self.sizes.second.unwrap_or(0)));
        columns.push(column_for("fullest", keys))?;
        columns.push(column_for("empty", buckets))?;
        columns.push(column_for("squares", keys.saturating_mul(keys)))?;
        Ok(())
    }

    /// The columns of numbers, in the order of a row's.
    fn columns(&self, alloc: Global) -> Result<Vec<Column>, AllocError>
        ensures { IfOk result (λ columns. names columns.items ≡ number_heads self.now) }
    {
        let keys = u128::from(self.keys);
        let mut columns = Vec::new(alloc);
        columns.push(column_for("bits", 128))?;
        // Chance has three digits behind its point.
        columns.push(column_for("equal", (keys.saturating_mul(keys) / 2).max(9999999)))?;
        self.push_buckets(&mut columns)?;
        if self.sizes.second.is_some() {
            self.push_buckets(&mut columns)?;
        }
        Ok(columns)
    }

    /// The first lines of the table, which name its columns.
    pub fn head(&self, alloc: Global) -> Result<String, AllocError>
        ensures { IfOk result (λ head. IsHead self.now (string_bytes head)) }
    {
        let columns = self.columns(alloc)?;
        let mut head = self.groups(alloc, &columns)?;
        head.push_str(self.names(alloc, &columns)?.as_str())?;
        Ok(head)
    }

    /// The line of the names of the columns.
    fn names(&self, alloc: Global, columns: &[Column]) -> Result<String, AllocError>
        requires { names columns.now ≡ number_heads self.now }
        ensures { IfOk result (λ line. IsLine (heads self.now) (string_bytes line)) }
    {
        let mut line = Line::new(alloc, "hash")?;
        line.push_names(columns)?;
        if self.times {
            line.push("ns", TIMES)?;
        }
        line.ended()
    }

    /// The line that says how many keys and buckets there are: the buckets above the last column of each number of them.
    fn groups(&self, alloc: Global, columns: &[Column]) -> Result<String, AllocError>
        ensures { IfOk result (λ line. IsLine (groups self.now) (string_bytes line)) }
    {
        let (first, second) = columns.split_at(columns.len().min(FIRST));
        let mut line = Line::new(alloc, counted(alloc, self.keys, "key")?.as_str())?;
        line.push(
            in_buckets(alloc, self.sizes.first)?.as_str(),
            width_of(first),
        )?;
        if let Some(buckets) = self.sizes.second {
            line.push(in_buckets(alloc, buckets)?.as_str(), width_of(second))?;
        }
        line.ended()
    }

    /// The line of a row.
    pub fn row(&self, alloc: Global, row: &TableRow) -> Result<String, AllocError>
        ensures { IfOk result (λ line. IsRow row.now (string_bytes line)) }
    {
        let mut line = Line::new(alloc, row.kind.row().name)?;
        let cells = cells_of(alloc, &row.numbers(alloc)?)?;
        line.push_cells(&cells, &self.columns(alloc)?)?;
        if let Some(time) = row.time {
            line.push(format!(in alloc; "{time:.1}")?.as_str(), TIMES)?;
        }
        line.ended()
    }

    /// The line that says what chance gives to hashes of so many bits.
    pub fn chance(&self, alloc: Global, bits: u32) -> Result<String, AllocError> {
        let mut cells = Vec::new(alloc);
        cells.push(format!(in alloc; "{bits}")?)?;
        let equal = equal_pairs(self.keys, bits);
        cells.push(format!(in alloc; "{equal:.3}")?)?;
        for buckets in [Some(self.sizes.first), self.sizes.second] {
            if let Some(buckets) = buckets {
                let chance = Chance::of(self.keys, buckets);
                let (fullest, empty, squares) = (chance.fullest, chance.empty, chance.squares);
                cells.push(format!(in alloc; "{fullest}")?)?;
                cells.push(format!(in alloc; "{empty:.0}")?)?;
                cells.push(format!(in alloc; "{squares:.0}")?)?;
            }
        }
        let mut line = Line::new(alloc, "by chance")?;
        line.push_cells(&cells, &self.columns(alloc)?)?;
        line.ended()
    }
}
