//! The source that `load` makes from a number.
#![tactic(auto)]

ghost use Rattle.std.specs.Prelude.{◌≡◌, ◌≤◌, IfOk};
ghost use Rattle.chord_run.specs.Load.{load_text};
ghost use Rattle.chord_run.specs.Sources.{IsShort};

use itoa::Buffer;
use std::alloc::{AllocError, Global};

/// The source up to the first place where the number stands.
const FRONT: &[u8] = b"class Buffer {
  public Buffer() { empty(); empty(); }
  public void Put(int v) & async empty() { full(v); }
  public int Get() & async full(int v) { empty(); return v; }
}
class Total {
  public Total(int n) { sum(0, n); }
  public async Add(int v) & async sum(int s, int n) {
    if (n == 1) done(s + v); else sum(s + v, n - 1);
  }
  public int Wait() & async done(int s) { return s; }
}
class Side {
  public async Produce(Buffer b) {
    int i = 1;
    while (i <= 100) { b.Put(i); i = i + 1; }
  }
  public async Consume(Buffer b, Total t) {
    int i = 1; int s = 0;
    while (i <= 100) { s = s + b.Get(); i = i + 1; }
    t.Add(s);
  }
}
class Program {
  static void Main() {
    Buffer b = new Buffer(); Total t = new Total(";

/// What stands between the two places.
const MIDDLE: &[u8] = b"); Side d = new Side();
    int i = 1;
    while (i <= ";

/// What follows the second place.
const BACK: &[u8] = b") { d.Produce(b); d.Consume(b, t); i = i + 1; }
    Console.WriteLine(t.Wait());
  }
}
";

/// The source of `load k`, for k from 1 to 60: k bodies put numbers into a buffer, and k others take them out and add them up.
pub fn load_source(alloc: Global, k: u32) -> Result<Vec<u8>, AllocError>
    requires some { 1 ≤ k }
    requires few { k ≤ 60 }
    ensures text { IfOk result (λ source. source.items ≡ load_text k) }
    ensures short { IfOk result (λ source. IsShort source.items) }
{
    let mut buffer = Buffer::new();
    let number = buffer.format(k).as_bytes();
    let mut source = Vec::from_slice(alloc, FRONT)?;
    source.extend_from_slice(number)?;
    source.extend_from_slice(MIDDLE)?;
    source.extend_from_slice(number)?;
    source.extend_from_slice(BACK)?;
    Ok(source)
}
