//! Each call on the file system failing in turn, and each growth refused in turn: the store or the set answers Device
//! or Memory, its file holds the old or the new bytes whole, and the same call made again is done. And what a set
//! makes of the names that a folder lists.

use crate::calls::{Call, Memory, answer, text_of};
use crate::scripted::{Plan, Scripted};
use dm_disk::{FileStore, RealDisk};
use dm_store::{Store, StoreFault};
use std::fs::Permissions;
use std::io::ErrorKind;
use std::os::unix::fs::PermissionsExt;
use std::process::Abort;
use std::{env, fs, io, process};
use test_helpers::Refusing;

// More growths than a call asks for.
const MOST_GROWTHS: u64 = 100;

type Text = &'static str;

// A call, what its file holds before and after it, what is answered, how many of the calls on the file system leave the
// file as it was, and these calls; or nothing, where another case has them.
type Case = (Call, Text, Text, Text, usize, Text);

#[rattlefmt::skip]
const CASES: &[Case] = &[
    // A load sees what is there before it opens it and after. It takes two bytes at a time, and then none. A store is
    // settled with it here, which syncs the folder; for a set that is a call of its own.
    (Call::Load(9), "one", "one", "one", 9,
        "look pages/0001, open pages/0001, look, read, read, read, open above/pages/, sync"),
    (Call::LoadKey(9), "one", "one", "one", 9, "look pages/0001, open pages/0001, look, read, read, read"),
    (Call::Load(usize::MAX), "one", "one", "one", 9, ""),
    (Call::Load(2), "one", "one", "one", 9, ""),
    (Call::Load(1), "one", "one", "on", 9, ""),
    (Call::LoadKey(0), "one", "one", "o", 9, ""),
    (Call::Load(9), "nothing", "nothing", "nothing", 9, "look pages/0001"),
    // The names are taken until there are none.
    (Call::Keys(9), "one", "one", "1", 9, "list above/pages/, names, names"),
    (Call::Settle, "one", "one", "done", 9, "open above/pages/, sync"),
    (Call::Settle, "nothing", "nothing", "done", 9, ""),
    // The folder is opened, to see that it can be. The new bytes go to a file beside, which gets the mode of the old
    // one, two at a time. It is synced, and takes the name; then the folder is synced.
    (Call::Replace, "one", "three", "done", 8,
        "open above/pages/, look pages/0001, open pages/0001.new, mode, write, write, write, sync, \
        rename pages/0001.new, open above/pages/, sync"),
    // A set makes the folder first, whether it is there or not, and syncs the one above it, but not where it has listed
    // a key.
    (Call::ReplaceKey(false), "one", "three", "done", 11,
        "make above/pages, open above/, sync, open above/pages/, look pages/0001, open pages/0001.new, mode, write, \
        write, write, sync, rename pages/0001.new, open above/pages/, sync"),
    (Call::ReplaceKey(true), "one", "three", "done", 11,
        "list above/pages/, names, names, open above/pages/, look pages/0001, open pages/0001.new, mode, write, \
        write, write, sync, rename pages/0001.new, open above/pages/, sync"),
    (Call::ReplaceKey(true), "nothing", "three", "done", 11,
        "list above/pages/, make above/pages, open above/, sync, open above/pages/, look pages/0001, \
        open pages/0001.new, write, write, write, sync, rename pages/0001.new, open above/pages/, sync"),
    // A draft goes first. If neither the file nor its folder is there, the folder above is synced.
    (Call::RemoveKey, "one", "nothing", "done", 1,
        "remove pages/0001.new, remove pages/0001, open above/pages/, sync"),
    (Call::RemoveKey, "nothing", "nothing", "done", 0,
        "remove pages/0001.new, remove pages/0001, open above/pages/, open above/, sync"),
];

// The calls of the case at a place.
pub fn steps_of(place: usize) -> &'static str {
    match CASES.get(place) {
        Some(case) => case.5,
        None => "",
    }
}

// Any calls may come.
const ANY_CALLS: Plan = (usize::MAX, 0, ErrorKind::PermissionDenied);

// What a file holds.
fn held(rt: &HostRuntime, file: &str) -> &'static str {
    match fs::read(rt, file) {
        Ok(bytes) => text_of(bytes.as_slice()),
        Err(_) => "nothing",
    }
}

// Where the cases are tried: the system's files and those under a script, and the paths of the folder, of the file and
// of its draft.
#[derive(Drop)]
struct Place<'a> {
    rt: &'a HostRuntime,
    files: &'a Scripted,
    folder: &'a str,
    file: &'a str,
    draft: &'a str,
}

impl Place<'_> {
    // Makes the folder anew, with the file in it, or takes it away where the file is to hold nothing.
    fn make(&self, content: &str) -> io::Result<()> {
        if fs::exists(self.rt, self.folder)? {
            fs::remove_dir_all(self.rt, self.folder)?;
        }
        if content == "nothing" {
            return Ok(());
        }
        fs::create_dir(self.rt, self.folder)?;
        fs::write(self.rt, self.file, content)
    }

    // What is answered to a call under a plan, and what the file holds then.
    fn tried(&self, call: &Call, memory: &Memory, plan: Plan) -> (Text, Text) {
        self.files.begin(plan);
        let answer = answer(self.files, memory, self.folder, call);
        (answer, held(self.rt, self.file))
    }

    // The call of a case with each call on the file system failing, which leaves no draft, and with none.
    fn fail_each(&self, rt: &impl Abort, number: usize, case: &Case) -> io::Result<()> {
        let (call, before, after, done, leaves, steps) = case;
        let memory = Refusing::new(self.files.alloc(), u64::MAX);
        let count = count_of(*steps);
        for passes in 0..=count {
            self.make(*before)?;
            let mut plan = (number, passes, ErrorKind::PermissionDenied);
            if passes < count {
                let content = if passes <= *leaves { *before } else { *after };
                let is_failed = self.tried(call, &memory, plan) == ("Device", content);
                assert!(rt;
                    is_failed && held(self.rt, self.draft) == "nothing",
                    "{passes}"
                );
                plan = ANY_CALLS;
            }
            assert!(rt;
                self.tried(call, &memory, plan) == (*done, *after),
                "{passes}"
            );
        }
        Ok(())
    }

    // The call of a case where the system syncs no folders, which is the last that a call does.
    fn fail_last(&self, rt: &impl Abort, number: usize, case: &Case) -> io::Result<()> {
        let (call, before, after, done, _, steps) = case;
        if steps.ends_with("sync") {
            self.make(*before)?;
            let memory = Refusing::new(self.files.alloc(), u64::MAX);
            let last = count_of(*steps).saturating_sub(1);
            let answer = if call.is_load() { *done } else { "Device" };
            let tried = self.tried(call, &memory, (number, last, ErrorKind::InvalidInput));
            assert!(rt; tried == (answer, *after));
        }
        Ok(())
    }

    // The call of a case with each growth refused, until none is, if that comes.
    fn refuse_each(&self, rt: &impl Abort, case: &Case) -> io::Result<bool> {
        let (call, before, after, done, _, _) = case;
        for passes in 0..MOST_GROWTHS {
            self.make(*before)?;
            let memory = Refusing::new(self.files.alloc(), passes);
            let mut tried = self.tried(call, &memory, ANY_CALLS);
            if memory.is_spent() {
                assert!(rt; tried == ("Memory", *before), "{passes}");
                tried = self.tried(call, &memory, ANY_CALLS);
            }
            assert!(rt; tried == (*done, *after), "{passes}");
            if !memory.is_spent() {
                return Ok(true);
            }
        }
        Ok(false)
    }
}

// How many calls these are; none where another case has them.
fn count_of(steps: &str) -> usize {
    if steps.is_empty() {
        0
    } else {
        steps.split(',').count()
    }
}

// The path of a test's own file or folder, below the system's folder for temporary files.
fn path_of(rt: &HostRuntime, name: &str) -> io::Result<String> {
    let process = process::id(rt.process());
    let temporary = env::temp_dir(rt)?;
    let temporary = temporary.as_path().as_str();
    Ok(format!(in rt.alloc(); "{temporary}/store_tests-{process}-{name}")?)
}

// Tries all cases in a folder.
fn try_cases(rt: &HostRuntime, abort: &impl Abort, above: &str) -> io::Result<()> {
    let folder = format!(in rt.alloc(); "{above}/pages")?;
    let file = format!(in rt.alloc(); "{above}/pages/0001")?;
    let draft = format!(in rt.alloc(); "{above}/pages/0001.new")?;
    let files = Scripted::new(rt.clone()?)?;
    let place = Place {
        rt,
        files: &files,
        folder: folder.as_str(),
        file: file.as_str(),
        draft: draft.as_str(),
    };
    for (number, case) in CASES.iter().enumerate() {
        place.fail_each(abort, number, case)?;
        place.fail_last(abort, number, case)?;
        assert!(abort; place.refuse_each(abort, case)?);
    }
    Ok(())
}

#[test]
fn each_call_fails_and_is_refused(rt: HostRuntime) {
    let above = path_of(&rt, "above").expect(&rt, "it is done");
    fs::create_dir(&rt, above.as_str()).expect(&rt, "it is done");
    try_cases(&rt, &rt, above.as_str()).expect(&rt, "it is done");
    fs::remove_dir_all(&rt, above.as_str()).expect(&rt, "it is done");
}

// Saves to any store, since what is over that of a system is proved in more time.
fn put<S: Store>(mut store: S, bytes: &[u8]) -> Result<(), StoreFault> {
    store.replace(bytes)
}

// Replaces what a file holds; a new file may be one that has to be new.
fn replace(rt: &HostRuntime, file: &str, bytes: &[u8], is_new: bool) -> Result<(), StoreFault> {
    let path = String::from_str(rt.alloc(), file)?;
    let disk = if is_new {
        RealDisk::of_new_files(rt.alloc(), rt)
    } else {
        RealDisk::new(rt.alloc(), rt)
    };
    put(FileStore::new(disk, path), bytes)
}

// Whether a file that is at the path of a new one stays, and so does what has the name of its first draft.
fn both_stay(rt: &HostRuntime, path: &str, draft: &str) -> io::Result<bool> {
    fs::write(rt, draft, "o")?;
    let is_made = replace(rt, path, b"one", true) == Ok(());
    let is_refused = replace(rt, path, b"three", true) == Err(StoreFault::Device);
    Ok(is_made && is_refused && held(rt, path) == "one" && held(rt, draft) == "o")
}

#[test]
fn a_new_file_takes_the_place_of_nothing(rt: HostRuntime) {
    let path = path_of(&rt, "new").expect(&rt, "it is done");
    let draft = format!(in rt.alloc(); "{path}.1.new").expect(&rt, "it is done");
    assert!(rt; both_stay(&rt, path.as_str(), draft.as_str()).expect(&rt, "it is done"));
    fs::remove_file(&rt, path.as_str()).expect(&rt, "it is done");
    fs::remove_file(&rt, draft.as_str()).expect(&rt, "it is done");
}

// Whether a file that is replaced keeps its mode.
fn keeps_its_mode(rt: &HostRuntime, path: &str) -> io::Result<bool> {
    fs::write(rt, path, "one")?;
    fs::set_permissions(rt, path, Permissions::from_mode(0o606))?;
    let is_replaced = replace(rt, path, b"three", false) == Ok(()) && held(rt, path) == "three";
    Ok(is_replaced && fs::metadata(rt, path)?.permissions().mode() & 0o777 == 0o606)
}

#[test]
fn a_save_keeps_the_mode(rt: HostRuntime) {
    let path = path_of(&rt, "mode").expect(&rt, "it is done");
    assert!(rt; keeps_its_mode(&rt, path.as_str()).expect(&rt, "it is done"));
    fs::remove_file(&rt, path.as_str()).expect(&rt, "it is done");
}

const FOUR_KEYS: &[u8] = b"0003\0ffff\0other\00001\00002\0";

const AMONG_OTHERS: &[u8] = b"00AB\0000g\000ab\0001\000001\00002.new\0\xc3\xa9t\xc3\xa9\0";

// What a folder lists, each name ended by a NUL, how often, a limit, and what `keys` answers then.
#[rattlefmt::skip]
const LISTINGS: &[(&[u8], u32, usize, &str)] = &[
    (b"0001\0", 1, 9, "1"),
    (FOUR_KEYS, 1, 9, "1 2 3 ffff"),
    (FOUR_KEYS, 1, 3, "1 2 3 ffff"),
    (FOUR_KEYS, 1, 1, "1 2"),
    (FOUR_KEYS, 1, 0, "1"),
    (AMONG_OTHERS, 1, 9, "ab"),
    // Names that are no text.
    (b"0003\0\xff\xfe\0", 1, 9, "Device"),
    (b"\xff\xfe\00003\0", 1, 9, "Device"),
    (b"other\0", 131_072, 9, "none"),
    (b"other\0", 131_073, 9, "Device"),
];

// The names of the listing at a place, and how often they come.
pub fn listing_of(place: usize) -> (&'static [u8], u32) {
    match LISTINGS.get(place) {
        Some((names, times, _, _)) => (*names, *times),
        None => (b"", 0),
    }
}

#[test]
fn a_set_takes_the_names_in_any_order(rt: HostRuntime) {
    let memory = Refusing::new(rt.alloc(), u64::MAX);
    let system = rt.clone().expect(&rt, "it is done");
    let files = Scripted::new(system).expect(&rt, "it is done");
    for (place, (_, _, limit, wanted)) in LISTINGS.iter().enumerate() {
        files.list(place);
        let listed = answer(&files, &memory, ".", &Call::Keys(*limit));
        assert!(rt; listed == *wanted, "{place}");
    }
}
