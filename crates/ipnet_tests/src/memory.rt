//! Memory that runs out. A sanitizer refuses no memory, so only a test that is proved can be run without memory.
mod helpers;
mod images;
mod pools;
mod routes;
mod text_tool;
