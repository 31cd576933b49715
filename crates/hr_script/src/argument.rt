//! What the words behind the first one of a line mean, by the line's kind. (Our own.)
ghost use Rattle.std.specs.Option.{option_copied};
ghost use Rattle.hr_script.specs.Line.{arguments_of, break_of, image_of, index_of, jobs_of, manifest_of, meaning_of, orphan_of};
ghost use Rattle.hr_script.specs.Meaning.{Answers, each};
ghost use Rattle.hr_script.specs.Text.{words_left, words_of};
ghost use Rattle.hr_script.specs.Word.{layer_in, tag_in};

use crate::event::{
    read_cause, read_deliver, read_exec, read_finish, read_forge, read_row, read_settle, read_step,
    read_stop, read_sweep, read_tags, read_take, read_trigger, read_wait, read_word,
};
use crate::kind::Kind;
use crate::line::Line;
use crate::planned::{read_change, read_fault};
use crate::progress::Progress;
use crate::refusal::{Refused, Why};
use crate::split::{end_words, split_word, take_word};
use crate::word::{read_job_count, read_layer, read_media, read_name, read_registry, read_tag};
use hr_base::{Bytes, List};
use hr_name::Tag;
use std::alloc::Global;

/// What a line that is not passed over means behind the lines so far.
pub(crate) fn read_line(alloc: Global, progress: Progress, line: &[u8]) -> Result<Line, Refused>
    ensures { Answers (meaning_of progress (words_of line.now)) result }
{
    let (first, words) = split_word(line);
    match Kind::of(first) {
        Ok(kind) if progress.is_misplaced(kind) => Err(Refused::Bad(Why::Order)),
        Ok(kind) => read_arguments(alloc, kind, words),
        Err(why) => Err(Refused::Bad(why)),
    }
}

// What these words mean in a line of this kind.
fn read_arguments(alloc: Global, kind: Kind, words: Option<&[u8]>) -> Result<Line, Refused>
    ensures { Answers (arguments_of kind (words_left (option_copied words.entry))) result }
{
    match kind {
        Kind::Image => read_image(alloc, words),
        Kind::Index => read_index(alloc, words),
        Kind::Orphan => read_orphan(alloc, words),
        Kind::Manifest => read_manifest(alloc, words),
        Kind::Break => read_break(alloc, words),
        Kind::Fault => read_fault(words, false),
        Kind::Lands => read_fault(words, true),
        Kind::Change => read_change(alloc, words),
        Kind::Jobs => read_jobs(words),
        Kind::Trigger => read_trigger(words),
        Kind::Take => read_take(words),
        Kind::Step => read_step(words),
        Kind::Settle => read_settle(words),
        Kind::Stop => read_stop(words),
        Kind::Deliver => read_deliver(words),
        Kind::Forge => read_forge(words),
        Kind::Wait => read_wait(words),
        Kind::Sweep => read_sweep(words),
        Kind::Finish => read_finish(words),
        Kind::Tags => read_tags(words),
        Kind::Row => read_row(words),
        Kind::Exec => read_exec(words),
        Kind::Word => read_word(words),
        Kind::Cause => read_cause(words),
        Kind::Later => Err(Refused::Bad(Why::NotYet)),
    }
}

fn read_image(alloc: Global, words: Option<&[u8]>) -> Result<Line, Refused>
    ensures { Answers (image_of (words_left (option_copied words.entry))) result }
{
    let (reg, words) = take_word(words)?;
    let (repo, words) = take_word(words)?;
    let (tag, layers) = take_word(words)?;
    Ok(Line::Image {
        reg: read_registry(reg)?,
        repo: read_name(alloc, repo)?,
        tag: read_tag(alloc, tag)?,
        layers: read_layers(alloc, layers)?,
    })
}

fn read_index(alloc: Global, words: Option<&[u8]>) -> Result<Line, Refused>
    ensures { Answers (index_of (words_left (option_copied words.entry))) result }
{
    let (reg, words) = take_word(words)?;
    let (repo, words) = take_word(words)?;
    let (tag, children) = take_word(words)?;
    Ok(Line::Index {
        reg: read_registry(reg)?,
        repo: read_name(alloc, repo)?,
        tag: read_tag(alloc, tag)?,
        children: read_children(alloc, children)?,
    })
}

fn read_orphan(alloc: Global, words: Option<&[u8]>) -> Result<Line, Refused>
    ensures { Answers (orphan_of (words_left (option_copied words.entry))) result }
{
    let (reg, words) = take_word(words)?;
    let (repo, layers) = take_word(words)?;
    Ok(Line::Orphan {
        reg: read_registry(reg)?,
        repo: read_name(alloc, repo)?,
        layers: read_layers(alloc, layers)?,
    })
}

fn read_manifest(alloc: Global, words: Option<&[u8]>) -> Result<Line, Refused>
    ensures { Answers (manifest_of (words_left (option_copied words.entry))) result }
{
    let (reg, words) = take_word(words)?;
    let (repo, words) = take_word(words)?;
    let (tag, words) = take_word(words)?;
    let (media, text) = take_word(words)?;
    let Some(text) = text else {
        return Err(Refused::Bad(Why::Count));
    };
    Ok(Line::Manifest {
        reg: read_registry(reg)?,
        repo: read_name(alloc, repo)?,
        tag: read_tag(alloc, tag)?,
        media: read_media(alloc, media)?,
        text: Bytes::of(alloc, text)?,
    })
}

fn read_break(alloc: Global, words: Option<&[u8]>) -> Result<Line, Refused>
    ensures { Answers (break_of (words_left (option_copied words.entry))) result }
{
    let (reg, words) = take_word(words)?;
    let (repo, words) = take_word(words)?;
    let (honest, words) = take_word(words)?;
    let (stored, words) = take_word(words)?;
    end_words(words)?;
    Ok(Line::Break {
        reg: read_registry(reg)?,
        repo: read_name(alloc, repo)?,
        honest: read_layer(alloc, honest)?,
        stored: read_layer(alloc, stored)?,
    })
}

fn read_jobs(words: Option<&[u8]>) -> Result<Line, Refused>
    ensures { Answers (jobs_of (words_left (option_copied words.entry))) result }
{
    let (jobs, words) = take_word(words)?;
    end_words(words)?;
    let jobs = read_job_count(jobs)?;
    Ok(Line::Jobs { jobs })
}

// The layers that the words left of a line write.
fn read_layers(alloc: Global, words: Option<&[u8]>) -> Result<List<Bytes>, Refused>
    ensures { Answers (each layer_in (words_left (option_copied words.entry))) result }
{
    let mut layers = List::new(alloc);
    let mut left = words;
    while let Some(text) = left {
        let (word, rest) = split_word(text);
        layers.push(read_layer(alloc, word)?)?;
        left = rest;
    }
    Ok(layers)
}

// The tags that the words left of a line are.
fn read_children(alloc: Global, words: Option<&[u8]>) -> Result<List<Tag>, Refused>
    ensures { Answers (each tag_in (words_left (option_copied words.entry))) result }
{
    let mut children = List::new(alloc);
    let mut left = words;
    while let Some(text) = left {
        let (word, rest) = split_word(text);
        children.push(read_tag(alloc, word)?)?;
        left = rest;
    }
    Ok(children)
}
