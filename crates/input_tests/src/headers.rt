//! Frames and their headers.

mod capture;
mod classify;
mod tcp_numbers;
