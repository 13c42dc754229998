//! Settings of a row, as words `NAME=VALUE`.
use dav_config::{DavConfig, Settings};
use dav_core::{DavMethod, DavMethodSet, DavPath, dav_method, is_plain};
use dav_disk::MemDisk;
use dav_io::{NoMemory, Text};
use dav_local::LocalFs;
use dav_memory::Forget;
use dav_rows::Line;
use http::Method;
use std::alloc::Global;
use std::mem;

pub type Store = LocalFs<MemDisk, Forget>;

pub type Config = DavConfig<Store, ()>;

// The methods that there are.
const METHODS: &str =
    "HEAD GET PUT PATCH OPTIONS PROPFIND PROPPATCH MKCOL COPY MOVE DELETE LOCK UNLOCK REPORT MKCALENDAR \
    MKADDRESSBOOK";

fn method_of(alloc: Global, word: &str) -> Option<DavMethod> {
    match Method::from_bytes(alloc, word.as_bytes()) {
        Ok(method) => dav_method(&method).ok(),
        Err(_) => None,
    }
}

fn add_method(alloc: Global, line: &mut Line, methods: &mut DavMethodSet, word: &str) {
    match method_of(alloc, word) {
        Some(method) => methods.add(method),
        None => line.refuse(),
    }
}

fn methods_of(alloc: Global, line: &mut Line, words: &str) -> DavMethodSet {
    let mut methods = DavMethodSet::none();
    for word in words.split(',') {
        add_method(alloc, line, &mut methods, word);
    }
    methods
}

// Takes a configuration out, to be put back with a setting more.
fn taken(alloc: Global, config: &mut Config) -> Config {
    mem::replace(config, DavConfig::new(alloc))
}

fn put(line: &mut Line, config: &mut Config, new: Result<Config, NoMemory>) {
    match new {
        Ok(new) => *config = new,
        Err(_) => line.refuse(),
    }
}

fn set_prefix(alloc: Global, line: &mut Line, config: &mut Config, prefix: &str) {
    if DavPath::prefix_fits(prefix) {
        let new = taken(alloc, config).strip_prefix(prefix);
        put(line, config, new);
    }
}

fn set_index(alloc: Global, line: &mut Line, config: &mut Config, name: &str) {
    if is_plain(name.as_bytes()) {
        let new = taken(alloc, config).indexfile(name);
        put(line, config, new);
    }
}

fn set_principal(alloc: Global, line: &mut Line, config: &mut Config, principal: &str) {
    let new = taken(alloc, config).principal(principal);
    put(line, config, new);
}

fn set_methods(alloc: Global, line: &mut Line, config: &mut Config, words: &str) {
    let methods = methods_of(alloc, line, words);
    let new = taken(alloc, config).methods(methods);
    put(line, config, Ok(new));
}

fn set_buffer(alloc: Global, line: &mut Line, config: &mut Config, size: usize) {
    let new = taken(alloc, config).read_buf_size(size);
    put(line, config, Ok(new));
}

fn set_hide(alloc: Global, line: &mut Line, config: &mut Config, yes: bool) {
    let new = taken(alloc, config).hide_symlinks(yes);
    put(line, config, Ok(new));
}

fn set_autoindex(alloc: Global, line: &mut Line, config: &mut Config, yes: bool) {
    let new = taken(alloc, config).autoindex(yes);
    put(line, config, Ok(new));
}

fn set_redirect(alloc: Global, line: &mut Line, config: &mut Config, yes: bool) {
    let new = taken(alloc, config).redirect(yes);
    put(line, config, Ok(new));
}

// Sets what a word sets. Other words set nothing.
fn set_word(alloc: Global, line: &mut Line, config: &mut Config, word: &str) {
    let (name, value) = word.split_once('=').unwrap_or((word, ""));
    match name {
        "prefix" => set_prefix(alloc, line, config, value),
        "methods" => set_methods(alloc, line, config, value),
        "principal" => set_principal(alloc, line, config, value),
        "index" => set_index(alloc, line, config, value),
        "buffer" => set_buffer(alloc, line, config, value.parse::<usize>().unwrap_or(0)),
        "hide" => set_hide(alloc, line, config, value == "yes"),
        "autoindex" => set_autoindex(alloc, line, config, value == "yes"),
        "redirect" => set_redirect(alloc, line, config, value == "yes"),
        _ => {}
    }
}

fn set_words(alloc: Global, line: &mut Line, config: &mut Config, words: &str) {
    for word in words.split(' ') {
        set_word(alloc, line, config, word);
    }
}

/// The configuration that words ask for, without a store.
pub fn config_of(alloc: Global, line: &mut Line, words: &str) -> Config {
    let mut config = DavConfig::new(alloc);
    set_words(alloc, line, &mut config, words);
    config
}

// The settings of a configuration, with others in their place where those are set.
fn settings_over(alloc: Global, line: &mut Line, config: &Config, new: &Settings) -> Settings {
    match config.merge(new) {
        Ok(settings) => settings,
        Err(_) => {
            line.refuse();
            Settings::defaults(alloc)
        }
    }
}

fn merged(alloc: Global, line: &mut Line, words: &str, new: &Settings) -> Settings {
    let config = config_of(alloc, line, words);
    settings_over(alloc, line, &config, new)
}

/// Adds the settings of one configuration, with those of another in their place where they are set.
pub fn tell_merged(alloc: Global, line: &mut Line, old: &str, new: &str) {
    line.add("merged");
    let new = merged(alloc, line, new, &Settings::defaults(alloc));
    let all = merged(alloc, line, old, &new);
    tell(alloc, line, &all);
}

fn tell_text(line: &mut Line, name: &str, text: &str) {
    line.tell(" ", name);
    line.tell("=", text);
}

fn tell_flag(line: &mut Line, name: &str, flag: Option<bool>) {
    match flag {
        Some(true) => tell_text(line, name, "yes"),
        Some(false) => tell_text(line, name, "no"),
        None => {}
    }
}

fn tell_option(line: &mut Line, name: &str, text: &Option<Text>) {
    match text {
        Some(text) => tell_text(line, name, text.as_str()),
        None => {}
    }
}

fn tell_method(line: &mut Line, word: &str, is_in: bool) {
    if is_in {
        line.tell(",", word);
    }
}

fn tell_if_in(alloc: Global, line: &mut Line, methods: DavMethodSet, word: &str) {
    match method_of(alloc, word) {
        Some(method) => tell_method(line, word, methods.contains(method)),
        None => line.refuse(),
    }
}

fn tell_methods(alloc: Global, line: &mut Line, methods: DavMethodSet) {
    line.add(" methods");
    for word in METHODS.split(' ') {
        tell_if_in(alloc, line, methods, word);
    }
}

// Adds each setting that is set, and the prefix.
fn tell(alloc: Global, line: &mut Line, settings: &Settings) {
    tell_text(line, "prefix", settings.prefix.as_str());
    if let Some(methods) = settings.allow {
        tell_methods(alloc, line, methods);
    }
    tell_option(line, "principal", &settings.principal);
    tell_flag(line, "hide", settings.hide_symlinks);
    tell_flag(line, "autoindex", settings.autoindex);
    tell_option(line, "index", &settings.indexfile);
    if let Some(size) = settings.read_buf_size {
        line.add_number(" buffer=", size as u64);
    }
    tell_flag(line, "redirect", settings.redirect);
}
