// Draws the plan file on standard input in SVG, on a page that the arguments tell: plot [PITCH [MARGIN_X [MARGIN_Y]]], in millimetres, with at most three digits after the point.
// What is no number is trouble; what is one is judged by question 17.
#![tactic(auto)]

use plan::Page;
use plan::limits::MOST_FILE;
use plot_arguments::read_length;
use std::env::FillError;
use std::io::Read;
use std::rt::Env;
use svg::DRAWING_SIZE;

// The page where nothing is said, in thousandths: pitch 4, margins 10.
const PITCH: u32 = 4000;

const MARGIN: u32 = 10000;

fn trouble(err: &impl Print, line: &[u8]) {
    err.write_all(line).is_ok();
}

// Argument i, or what is meant where it is not there. One that is longer than a path is no number.
fn argument<R: Env>(rt: &R, i: usize, otherwise: u32) -> Option<u32> {
    let mut text = [0u8; 4096];
    match rt.arg(i, &mut text) {
        Ok(n) => read_length(&text[..n]),
        Err(FillError::NotPresent) => Some(otherwise),
        Err(FillError::TooLong) => None,
    }
}

fn millimetres(n: u32) -> f64 {
    f64::from(n) / 1000.0
}

// The page that the arguments tell, if each of them is a number.
fn page<R: Env>(rt: &R) -> Option<Page> {
    if 4 < input::argument_count(rt) {
        return None;
    }
    Some(Page {
        pitch: millimetres(argument(rt, 1, PITCH)?),
        margin_x: millimetres(argument(rt, 2, MARGIN)?),
        margin_y: millimetres(argument(rt, 3, MARGIN)?),
    })
}

fn print_drawing(out: &impl Print, err: &impl Print, file: &[u8], page: Page) {
    let mut text = [0u8; DRAWING_SIZE];
    let length = svg::write_drawing(file, page, &mut text);
    if out.write_all(&text[..length]).is_err() {
        trouble(err, b"plot: the drawing could not be written whole\n");
    }
}

fn draw<F: Read>(out: &impl Print, err: &impl Print, from: &mut F, page: Page) {
    let mut file = [0u8; MOST_FILE + 1];
    match input::read_whole(from, &mut file) {
        Ok(input) => print_drawing(out, err, &file[..input.length], page),
        Err(_) => trouble(err, b"plot: the plan cannot be read\n"),
    }
}

fn main(rt: HostRuntime) {
    let err = rt.stderr();
    match page(&rt) {
        Some(page) => draw(&rt.stdout(), &err, &mut rt.stdin(), page),
        None => trouble(
            &err,
            b"plot: arguments are pitch, margin x and margin y in millimetres, each with at most three digits after the point\n",
        ),
    }
}
