//! The picture as SVG: a bar for each part of the run, in which each route has its share.

ghost use Rattle.std.specs.Prelude.{◌≡◌, IfOk, length};
ghost use Rattle.eddy_picture.specs.Figures as shape;
ghost use Rattle.eddy_picture.specs.Percent as spec;

use crate::figures::{Figures, Row, given_in, percent, sum_of};
use crate::labels::Scope;
use crate::text::word_of;
use route_counts::PARTS;
use std::alloc::{AllocError, Global};

/// How many points are above the legend.
const ABOVE: usize = 276;

/// What the bars are, as a line between them and the legend.
const CAPTION: &str =
    "<text x=\"10\" y=\"250\">a bar: a tenth of the run; a colour: a route's share of its routings</text>\n";

/// The most lines of a legend.
const LINES: usize = 2000;

// The hue of a row's colour, in degrees.
fn hue_of(place: usize) -> usize {
    place % 360 * 67 % 360
}

// Adds a text with the signs of SVG written out.
fn push_escaped(text: &mut String, plain: &str) -> Result<(), AllocError> {
    for sign in plain.chars() {
        match sign {
            '<' => text.push_str("&lt;")?,
            '>' => text.push_str("&gt;")?,
            '&' => text.push_str("&amp;")?,
            other => text.push(other)?,
        }
    }
    Ok(())
}

// Adds a rectangle in the colour of a row.
fn push_box(
    alloc: Global,
    text: &mut String,
    corner: (usize, usize),
    width: usize,
    height: u64,
    place: usize,
) -> Result<(), AllocError> {
    let hue = hue_of(place);
    let (x, y) = corner;
    let size = format!(in alloc;
        "<rect x=\"{x}\" y=\"{y}\" width=\"{width}\" height=\"{height}\""
    )?;
    text.push_str(size.as_str())?;
    text.push_str(format!(in alloc; " fill=\"hsl({hue},55%,60%)\"/>\n")?.as_str())
}

// Adds the bar of a part, from the top: two points for each of a hundred.
fn push_bar(alloc: Global, text: &mut String, rows: &[Row], part: usize) -> Result<(), AllocError>
    requires { spec.IsPart part }
{
    let whole = given_in(rows, part);
    let mut y: usize = 30;
    for (place, row) in rows.iter().enumerate() {
        let height = percent(row.given[part], whole).min(100) * 2;
        push_box(alloc, text, (10 + part * 60, y), 54, height, place)?;
        y = y.saturating_add(height as usize);
    }
    Ok(())
}

// Adds the legend's line of a row.
fn push_legend(
    alloc: Global,
    text: &mut String,
    scope: &Scope<'_>,
    row: &Row,
    place: usize,
) -> Result<(), AllocError> {
    let y = place.min(LINES) * 18 + ABOVE;
    push_box(alloc, text, (10, y - 11), 12, 12, place)?;
    let word = word_of(alloc, row.lane)?;
    let deed = scope.deed(alloc, row.lane)?;
    text.push_str(format!(in alloc; "<text x=\"28\" y=\"{y}\">{word} ")?.as_str())?;
    push_escaped(text, deed.as_str())?;
    let given = sum_of(&row.given);
    let came = sum_of(&row.came);
    text.push_str(format!(in alloc; ": given {given}, came {came}</text>\n")?.as_str())
}

/// Adds the picture of a run, so many points from the top, and answers where the next one begins.
///
/// # Errors
/// There is no memory for it.
pub fn push_svg(
    alloc: Global,
    text: &mut String,
    scope: &Scope<'_>,
    figures: &Figures,
    top: usize,
) -> Result<usize, AllocError>
    ensures { IfOk result (λ next. next ≡ shape.picture_end top (length figures.now.rows.items)) }
{
    let rows = figures.rows.as_slice();
    let number = figures.number;
    text.push_str(format!(in alloc; "<g transform=\"translate(0,{top})\">\n")?.as_str())?;
    text.push_str(format!(in alloc; "<text x=\"10\" y=\"20\">query {number}</text>\n")?.as_str())?;
    for part in 0..PARTS {
        push_bar(alloc, text, rows, part)?;
    }
    text.push_str(CAPTION)?;
    for (place, row) in rows.iter().enumerate() {
        push_legend(alloc, text, scope, row, place)?;
    }
    text.push_str("</g>\n")?;
    let height = rows.len().min(LINES) * 18 + ABOVE;
    Ok(top.saturating_add(height))
}

/// A file of SVG with these pictures, which are so high together.
///
/// # Errors
/// There is no memory for it.
pub fn svg_file(alloc: Global, pictures: &str, height: usize) -> Result<String, AllocError> {
    let mut text = String::from_str(
        alloc,
        "<svg xmlns=\"http://www.w3.org/2000/svg\" width=\"640\"",
    )?;
    text.push_str(format!(in alloc; " height=\"{height}\"")?.as_str())?;
    text.push_str(" font-family=\"sans-serif\" font-size=\"12\">\n")?;
    text.push_str(pictures)?;
    text.push_str("</svg>\n")?;
    Ok(text)
}
