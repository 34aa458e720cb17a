//! Sources that several tests play or parse.

/// A text is put into a buffer, got out and printed.
pub(crate) const BUFFER: &str = "class Buffer {
  public string Get() & public async Put(string s) { return s; }
}
class Program {
  static void Main() {
    Buffer b = new Buffer();
    b.Put(\"hi\");
    Console.WriteLine(b.Get());
  }
}
";

/// Twenty texts are put into a buffer, which no run of 16 entries does.
pub(crate) const PUTS_PAST_16: &str = "class Buffer {
  public string Get() & public async Put(string s) { return s; }
}
class Program {
  static void Main() {
    Buffer b = new Buffer();
    b.Put(\"hi\"); b.Put(\"hi\"); b.Put(\"hi\"); b.Put(\"hi\"); b.Put(\"hi\");
    b.Put(\"hi\"); b.Put(\"hi\"); b.Put(\"hi\"); b.Put(\"hi\"); b.Put(\"hi\");
    b.Put(\"hi\"); b.Put(\"hi\"); b.Put(\"hi\"); b.Put(\"hi\"); b.Put(\"hi\");
    b.Put(\"hi\"); b.Put(\"hi\"); b.Put(\"hi\"); b.Put(\"hi\"); b.Put(\"hi\");
    Console.WriteLine(b.Get());
  }
}
";

/// Twenty messages of which each begins a body: a run of 16 entries ends while some have not begun.
pub(crate) const FIRINGS_PAST_16: &str = "class A { public async a() { } }
class P { static void Main() { A o = new A(); int i = 0; while (i < 20) { o.a(); i = i + 1; } } }
";

/// An asynchronous body divides by 0, beside `Main`.
pub(crate) const DIVIDES_BESIDE_MAIN: &str =
    "class A { public async Bad(int n) { Console.WriteLine(1 / n); } }
class P { static void Main() { A a = new A(); a.Bad(0); } }
";

/// Three readers and a writer share a lock, and `Main` waits until all four have counted themselves.
pub(crate) const READERS_AND_WRITERS: &str = "class Lock {
  public Lock() { idle(); }
  public void Shared() & async idle() { held(1); }
  public void Shared() & async held(int n) { held(n + 1); }
  public void ReleaseShared() & async held(int n) {
    if (n == 1) idle(); else held(n - 1);
  }
  public void Exclusive() & async idle() { }
  public void ReleaseExclusive() { idle(); }
}
class Total {
  public Total(int n) { sum(0, n); }
  public async Add(int v) & async sum(int s, int n) {
    if (n == 1) done(s + v); else sum(s + v, n - 1);
  }
  public int Wait() & async done(int s) { return s; }
}
class Work {
  public async Reader(Lock k, Total t) { k.Shared(); k.ReleaseShared(); t.Add(1); }
  public async Writer(Lock k, Total t) { k.Exclusive(); k.ReleaseExclusive(); t.Add(1); }
}
class Program {
  static void Main() {
    Lock k = new Lock(); Total t = new Total(4); Work w = new Work();
    w.Reader(k, t); w.Reader(k, t); w.Writer(k, t); w.Reader(k, t);
    Console.WriteLine(t.Wait());
  }
}
";

/// Santa is woken by nine reindeer together or by three elves together, and works four times.
pub(crate) const SANTA: &str = "class Santa {
  public Santa() { deer(0); elves(0); }
  public async Back() & async deer(int n) {
    if (n == 8) { deer(0); sleigh(); } else deer(n + 1);
  }
  public async Ask() & async elves(int n) {
    if (n == 2) { elves(0); group(); } else elves(n + 1);
  }
  public void Work() & async sleigh() { Console.WriteLine(\"Santa delivers toys\"); }
  public void Work() & async group() { Console.WriteLine(\"Santa meets elves\"); }
}
class Folk {
  public async Reindeer(Santa s) { s.Back(); }
  public async Elf(Santa s) { s.Ask(); }
}
class Program {
  static void Main() {
    Santa s = new Santa(); Folk f = new Folk();
    int i = 0;
    while (i < 10) { if (i < 9) f.Reindeer(s); f.Elf(s); i = i + 1; }
    s.Work(); s.Work(); s.Work(); s.Work();
  }
}
";
